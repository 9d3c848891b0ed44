//! References to documents, as the form has them.

ghost use Rattle.std.specs.Prelude.{◌≡◌, IfErr, IsTrue};
ghost use Rattle.ent_policy.specs.Gives.{Gives};
ghost use Rattle.ent_policy.specs.declared.fault.CheckFault.TheVariants.{Memory};
ghost use Rattle.ent_polform.specs.Reading.{has_form};
ghost use Rattle.ent_polform.specs.Reference.{has_reference_form, kind_of, reference_by, reference_key, reference_of};

use crate::objects::{copy_at, required};
use ent_json::{JsonTree, text_or_absent};
use ent_policy::{CheckFault, DocFault, Kind, RawReference, Reference, check_reference};
use std::alloc::Global;

/// The key of a reference to a document of that kind.
pub(crate) fn reference_key(kind: Kind) -> &'static str
    ensures { result.now ≡ reference_key kind }
{
    match kind {
        Kind::Policy => "PolicyIdReference",
        Kind::PolicySet => "PolicySetIdReference",
    }
}

/// The kind of document to which a reference of that key leads.
///
/// Its contract is an equation.
pub(crate) fn kind(key: &str) -> Option<Kind>
    ensures { result ≡ kind_of key.now }
{
    if key == reference_key(Kind::Policy) {
        return Some(Kind::Policy);
    }
    if key == reference_key(Kind::PolicySet) {
        return Some(Kind::PolicySet);
    }
    None
}

/// Whether the value has the keys of a reference, and texts at those that may be absent.
fn has_reference_form<J: JsonTree>(body: &J) -> bool
    ensures { result ≡ has_reference_form (J.content body.now) }
{
    body.has_only(&["EarliestVersion", "Id", "LatestVersion", "Version"])
        && text_or_absent(body, "EarliestVersion")
        && text_or_absent(body, "LatestVersion")
        && text_or_absent(body, "Version")
}

/// A reference to a document of that kind (sections 5.10 and 5.11), as read. The only fault that is found here is one of
/// its form.
///
/// Its contract is an equation but for memory.
#[tactic(auto, unfolding(crate::specs::Reference::reference_by))]
pub fn reference<J: JsonTree>(
    alloc: Global,
    kind: Kind,
    body: &J,
) -> Result<RawReference, CheckFault>
    ensures reference { Gives result (reference_by kind (J.content body.now)) }
    ensures memory { IfErr result (λ e. e ≡ Memory → IsTrue (has_form (reference_by kind (J.content body.now)))) }
{
    if !has_reference_form(body) {
        return Err(CheckFault::Doc(DocFault::Form));
    }
    Ok(RawReference {
        kind,
        id: required(alloc, body, "Id")?,
        version: copy_at(alloc, body, "Version")?,
        earliest: copy_at(alloc, body, "EarliestVersion")?,
        latest: copy_at(alloc, body, "LatestVersion")?,
    })
}

/// The reference that a JSON value spells: an object `{"PolicyIdReference": {..}}` (section 5.11) or
/// `{"PolicySetIdReference": {..}}` (section 5.10). It has the key Id, and may have Version, EarliestVersion and
/// LatestVersion, version patterns (section 5.13). Each of them is a text.
///
/// # Errors
///
/// [`DocFault::Form`] for any other value. Then the first fault that [`ent_policy::check_reference`] finds.
/// [`CheckFault::Memory`] if memory runs out, never where the form is wrong.
///
/// Its contract is an equation but for memory.
#[tactic(auto, unfolding(crate::specs::Reference::reference_of), using(crate::proofs::ReferenceLemmas::keeps_form))]
pub fn read_reference<J: JsonTree>(alloc: Global, json: &J) -> Result<Reference, CheckFault>
    ensures reference { Gives result (reference_of (J.content json.now)) }
    ensures memory { IfErr result (λ e. e ≡ Memory → IsTrue (has_form (reference_of (J.content json.now)))) }
{
    let (key, body) = json.one_member().ok_or(DocFault::Form)?;
    let kind = kind(key).ok_or(DocFault::Form)?;
    check_reference(alloc, reference(alloc, kind, body)?)
}
