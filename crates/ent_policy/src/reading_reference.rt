//! From references as read to those that are stored.

ghost use Rattle.std.specs.Prelude.{◌≡◌, IfOk, codes};
ghost use Rattle.ent_policy.specs.Names.{name_of};
ghost use Rattle.ent_policy.specs.declared.fault.DocFault.TheVariants.{Identifier};
ghost use Rattle.ent_policy.specs.Reading.{constraints_read, known, maybe_read, pattern_read, reference_read};

use crate::fault::DocFault;
use crate::first::first_of;
use crate::key::Reference;
use crate::name::Name;
use crate::pattern::{PatternPart, VersionConstraints, VersionMatch};
use crate::raw::RawReference;
use crate::read::{Read, done, known, made};
use ent_values::Text;
use std::alloc::{AllocError, Global};

fn pattern(text: &str) -> Read<VersionMatch>
    ensures { result ≡ pattern_read text.now }
{
    known(
        VersionMatch::any(),
        DocFault::Version,
        VersionMatch::parse(text),
    )
}

fn maybe_pattern(text: &Option<Text>) -> Read<Option<VersionMatch>>
    ensures { result ≡ maybe_read pattern_read text.now }
{
    match text {
        None => done(None),
        Some(text) => made(pattern(text.as_str()), |pattern| Some(pattern)),
    }
}

#[tactic(auto, unfolding(crate::specs::Reading::constraints_read))]
fn constraints(raw: &RawReference) -> Read<VersionConstraints>
    ensures { result ≡ constraints_read raw.now }
{
    let version = maybe_pattern(&raw.version);
    let earliest = maybe_pattern(&raw.earliest);
    let latest = maybe_pattern(&raw.latest);
    Read {
        fault: first_of(&[version.fault, earliest.fault, latest.fault]),
        value: VersionConstraints {
            version: version.value,
            earliest: earliest.value,
            latest: latest.value,
        },
    }
}

/// The name, or a stand-in.
fn name(alloc: Global, id: Text) -> Result<Read<Name>, AllocError>
    ensures { IfOk result (λ r. r ≡ known (codes "-") Identifier (name_of id)) }
{
    match Name::new(id) {
        None => Ok(Read {
            value: Name::dash(alloc)?,
            fault: Some(DocFault::Identifier),
        }),
        Some(name) => Ok(done(name)),
    }
}

/// A reference.
#[tactic(auto, unfolding(crate::specs::Reading::reference_read))]
pub(crate) fn reference(alloc: Global, raw: RawReference) -> Result<Read<Reference>, AllocError>
    ensures { IfOk result (λ r. r ≡ reference_read raw) }
{
    let constraints = constraints(&raw);
    let id = name(alloc, raw.id)?;
    Ok(Read {
        fault: first_of(&[id.fault, constraints.fault]),
        value: Reference {
            kind: raw.kind,
            id: id.value,
            constraints: constraints.value,
        },
    })
}
