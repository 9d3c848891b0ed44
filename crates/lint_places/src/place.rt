//! The smallest part of a document that has its first fault.

ghost use Rattle.std.specs.Prelude.{◌≡◌, ◌++◌, ◌∷◌, [], Err, IfOk, None, Some, codes, false, find, get_or, map};
ghost use Rattle.std.specs.Prelude.{option_map};
ghost use Rattle.std.specs.Prelude.{string_bytes, true};
ghost use Rattle.serde_json.specs.Find.{get};
ghost use Rattle.ent_polform.specs.Form.{document_of};
ghost use Rattle.lint_places.specs.Faults.{IsFirst, IsLedTo};
ghost use Rattle.lint_places.specs.Parts.{item};
ghost use Rattle.lint_places.specs.proofs_only.Clear.{AreMarked, IsMarked, IsMarkedAs};
ghost use Rattle.lint_places.specs.proofs_only.Rows.{links_in};
ghost use Rattle.lint_places.specs.proofs_only.Suspects.{AreSuspectsIn};
ghost use Rattle.lint_places.specs.Places.{IsSmallest, StandsAt, at_key, at_keys, at_numbers, has_fault, in_list};
ghost use Rattle.lint_places.specs.Places.{inside, listed, scope_at, scope_in, scope_of_member};
ghost use Rattle.lint_places.specs.Places.{whole};
ghost use Rattle.lint_places.specs.Views.{scope_of, spot_of};

use crate::clear::marked;
use crate::faulty::has_fault;
use crate::led::links;
use crate::members::listed;
use crate::part::Part;
use crate::scope::Scope;
use crate::suspects::suspects;
use ent_json::JsonTree;
use ent_policy::DocFault;
use std::alloc::{AllocError, Global};

/// A part of a document and where it stands.
#[derive(Drop)]
pub struct Place<'a, J> {
    /// Its place in the document, as a JSON pointer (RFC 6901).
    pub pointer: String,
    /// What it is for.
    pub part: Part,
    /// The variable definitions around it.
    pub scope: Scope<'a, J>,
    /// What stands there.
    pub json: &'a J,
}

/// What is known of the members of a list before one is judged: of definitions, which refer to which, and which may
/// have the fault.
#[derive(Drop)]
struct ListLinks {
    links: Vec<Vec<usize>>,
    suspects: Vec<bool>,
}

impl<'a, J: JsonTree> Place<'a, J> {
    /// The place of a whole document.
    pub(crate) fn whole(alloc: Global, json: &'a J) -> Place<'a, J>
        ensures spot { spot_of J.content result ≡ whole (J.content json.now) }
        ensures clear { result.scope.clear ≡ false }
    {
        Place {
            pointer: String::new(alloc),
            part: Part::Document,
            scope: Scope::nowhere(alloc),
            json,
        }
    }

    /// The definitions around what stands in this part.
    fn scope_in(&self, alloc: Global, fault: DocFault) -> Result<Scope<'a, J>, AllocError>
        requires { IsMarked J.content fault self.now.scope }
        ensures scope { IfOk result (λ s. scope_of J.content s
            ≡ scope_in self.now.part (scope_of J.content self.now.scope) (J.content self.now.json.now)) }
        ensures marked { IfOk result (λ s. IsMarked J.content fault s) }
    {
        match self.part {
            Part::Policy => {
                marked(
                    alloc,
                    fault,
                    Scope::of(alloc, self.json.get("VariableDefinition")),
                )
            }
            Part::Set => Ok(Scope::nowhere(alloc)),
            Part::Definition => marked(alloc, fault, self.scope.copied(alloc)?),
            _ => self.scope.copied(alloc),
        }
    }

    /// For each of the definitions that this part is a list of the numbers of those that refer to its variable.
    pub(crate) fn links(&self, alloc: Global) -> Result<Vec<Vec<usize>>, AllocError>
        ensures { IfOk result (λ v. map (λ row. row.items) v.items
            ≡ links_in self.now.part (listed (Some (J.content self.now.json.now)))) }
    {
        match self.part {
            Part::Definitions => links(alloc, listed(Some(self.json))),
            _ => Ok(Vec::new(alloc)),
        }
    }

    /// Which members of this list may have the fault; behind the end of the list each may.
    fn suspects(&self, alloc: Global, fault: DocFault) -> Result<Vec<bool>, AllocError>
        ensures { IfOk result (λ v. AreSuspectsIn fault self.now.part (scope_of J.content self.now.scope)
            (listed (Some (J.content self.now.json.now))) v.items) }
    {
        match self.part {
            Part::Definitions => suspects(alloc, listed(Some(self.json)), fault),
            _ => Ok(Vec::new(alloc)),
        }
    }

    /// What is known of the members of this list before one is judged.
    fn known(&self, alloc: Global, fault: DocFault) -> Result<ListLinks, AllocError>
        ensures links { IfOk result (λ k. map (λ row. row.items) k.links.items
            ≡ links_in self.now.part (listed (Some (J.content self.now.json.now)))) }
        ensures suspects { IfOk result (λ k. AreSuspectsIn fault self.now.part (scope_of J.content self.now.scope)
            (listed (Some (J.content self.now.json.now))) k.suspects.items) }
    {
        let suspects = self.suspects(alloc, fault)?;
        let links = self.links(alloc)?;
        Ok(ListLinks { links, suspects })
    }

    /// The definitions around the member of that number of this list.
    pub(crate) fn scope_of_member(
        &self,
        alloc: Global,
        links: &[Vec<usize>],
        number: usize,
    ) -> Result<Scope<'a, J>, AllocError>
        requires { map (λ row. row.items) links.now
            ≡ links_in self.now.part (listed (Some (J.content self.now.json.now))) }
        ensures scope { IfOk result (λ s. scope_of J.content s ≡ scope_of_member self.now.part
            (scope_of J.content self.now.scope) (listed (Some (J.content self.now.json.now))) number) }
        ensures clear { IfOk result (λ s. IsMarkedAs J.content self.now.scope s) }
    {
        match self.part {
            Part::Definitions => Scope::around(alloc, listed(Some(self.json)), links, number),
            _ => self.scope.copied(alloc),
        }
    }

    /// What stands at the key of this part, if it has the fault; the definitions are those around what stands in it.
    fn at_key(
        &self,
        alloc: Global,
        scope: &Scope<'a, J>,
        key: &str,
        part: Part,
        fault: DocFault,
    ) -> Result<Option<Place<'a, J>>, AllocError>
        requires scope { scope_of J.content scope.now
            ≡ scope_in self.now.part (scope_of J.content self.now.scope) (J.content self.now.json.now) }
        requires marked { IsMarked J.content fault scope.now }
        ensures found { IfOk result (λ o. option_map (spot_of J.content) o ≡ find (has_fault fault)
            (at_key (spot_of J.content self.now) (key.now, part) (get key.now (J.content self.now.json.now)))) }
        ensures marked { IfOk result (λ o. AreMarked J.content fault o) }
    {
        let Some(json) = self.json.get(key) else {
            return Ok(None);
        };
        let scope = scope_at(alloc, part, scope)?;
        if !has_fault(alloc, fault, part, &scope, json)? {
            return Ok(None);
        }
        let pointer = pointer_to(alloc, self.pointer.as_str(), key)?;
        Ok(Some(Place {
            pointer,
            part,
            scope,
            json,
        }))
    }

    /// The first part at a key of this part that has the fault.
    fn at_keys(&self, alloc: Global, fault: DocFault) -> Result<Option<Place<'a, J>>, AllocError>
        requires { IsMarked J.content fault self.now.scope }
        ensures found { IfOk result (λ o. option_map (spot_of J.content) o
            ≡ find (has_fault fault) (at_keys (spot_of J.content self.now))) }
        ensures marked { IfOk result (λ o. AreMarked J.content fault o) }
    {
        let scope = self.scope_in(alloc, fault)?;
        for row in self.part.rows() {
            if let Some(found) = self.at_key(alloc, &scope, row.0, row.1, fault)? {
                return Ok(Some(found));
            }
        }
        Ok(None)
    }

    /// The member of that number of this list, if it has the fault.
    fn member(
        &self,
        alloc: Global,
        known: &ListLinks,
        number: usize,
        part: Part,
        json: &'a J,
        fault: DocFault,
    ) -> Result<Option<Place<'a, J>>, AllocError>
        requires item { item self.now.part ≡ Some part }
        requires links { map (λ row. row.items) known.now.links.items
            ≡ links_in self.now.part (listed (Some (J.content self.now.json.now))) }
        requires suspects { AreSuspectsIn fault self.now.part (scope_of J.content self.now.scope)
            (listed (Some (J.content self.now.json.now))) known.now.suspects.items }
        requires marked { IsMarked J.content fault self.now.scope }
        ensures found { IfOk result (λ o. option_map (spot_of J.content) o ≡ find (has_fault fault)
            (at_numbers (spot_of J.content self.now) part (listed (Some (J.content self.now.json.now))) number
            (J.content json.now ∷ []))) }
        ensures marked { IfOk result (λ o. AreMarked J.content fault o) }
    {
        if !is_suspect(known.suspects.as_slice(), number) {
            return Ok(None);
        }
        let scope = self.scope_of_member(alloc, known.links.as_slice(), number)?;
        if !has_fault(alloc, fault, part, &scope, json)? {
            return Ok(None);
        }
        let name = format!(in alloc; "{number}")?;
        let pointer = pointer_to(alloc, self.pointer.as_str(), name.as_str())?;
        Ok(Some(Place {
            pointer,
            part,
            scope,
            json,
        }))
    }

    /// The first member of this list that has the fault.
    fn in_list(&self, alloc: Global, fault: DocFault) -> Result<Option<Place<'a, J>>, AllocError>
        requires { IsMarked J.content fault self.now.scope }
        ensures found { IfOk result (λ o. option_map (spot_of J.content) o
            ≡ find (has_fault fault) (in_list (spot_of J.content self.now) (item self.now.part))) }
        ensures marked { IfOk result (λ o. AreMarked J.content fault o) }
    {
        let Some(part) = self.part.item() else {
            return Ok(None);
        };
        let known = self.known(alloc, fault)?;
        for (number, json) in listed(Some(self.json)).iter().enumerate() {
            if let Some(found) = self.member(alloc, &known, number, part, json, fault)? {
                return Ok(Some(found));
            }
        }
        Ok(None)
    }

    /// The first part one level inside of this one that has the fault.
    fn inside(&self, alloc: Global, fault: DocFault) -> Result<Option<Place<'a, J>>, AllocError>
        requires { IsMarked J.content fault self.now.scope }
        ensures found { IfOk result (λ o. option_map (spot_of J.content) o
            ≡ find (has_fault fault) (inside (spot_of J.content self.now))) }
        ensures marked { IfOk result (λ o. AreMarked J.content fault o) }
    {
        match self.at_keys(alloc, fault)? {
            Some(found) => Ok(Some(found)),
            None => self.in_list(alloc, fault),
        }
    }

    /// A copy of the place, in a scope that isn't marked.
    pub(crate) fn unmarked(&self, alloc: Global) -> Result<Place<'a, J>, AllocError>
        ensures same { IfOk result (λ p. spot_of J.content p ≡ spot_of J.content self.now) }
        ensures unmarked { IfOk result (λ p. p.scope.clear ≡ false) }
    {
        let mut scope = self.scope.copied(alloc)?;
        scope.clear = false;
        Ok(Place {
            pointer: String::from_str(alloc, self.pointer.as_str())?,
            part: self.part,
            scope,
            json: self.json,
        })
    }
}

/// Whether the member of that number may have the fault.
fn is_suspect(suspects: &[bool], number: usize) -> bool
    ensures { result ≡ get_or suspects.now number true }
{
    match suspects.get(number) {
        Some(is_suspect) => *is_suspect,
        None => true,
    }
}

/// The definitions around what stands at a key and is for that, by those around what stands in its object.
pub(crate) fn scope_at<'a, J: JsonTree>(
    alloc: Global,
    part: Part,
    scope: &Scope<'a, J>,
) -> Result<Scope<'a, J>, AllocError>
    ensures scope { IfOk result (λ s. scope_of J.content s ≡ scope_at part (scope_of J.content scope.now)) }
    ensures clear { IfOk result (λ s. IsMarkedAs J.content scope.now s) }
{
    match part {
        Part::Definitions
        | Part::Name
        | Part::Description
        | Part::Version
        | Part::Pattern
        | Part::RuleAlgorithm
        | Part::PolicyAlgorithm
        | Part::Function
        | Part::DataType
        | Part::Literal
        | Part::Effect
        | Part::Flag => Ok(Scope::nowhere(alloc)),
        _ => scope.copied(alloc),
    }
}

/// The JSON pointer of what stands at that name inside of what stands at `place`.
pub(crate) fn pointer_to(alloc: Global, place: &str, name: &str) -> Result<String, AllocError>
    ensures { IfOk result (λ p. string_bytes p ≡ place.now ++ codes "/" ++ name.now) }
{
    let mut pointer = String::from_str(alloc, place)?;
    pointer.push('/')?;
    pointer.push_str(name)?;
    Ok(pointer)
}

/// The smallest part that has the fault, of a place that has it.
fn smallest<'a, J: JsonTree>(
    alloc: Global,
    place: Place<'a, J>,
    fault: DocFault,
) -> Result<Place<'a, J>, AllocError>
    requires faulty { has_fault fault (spot_of J.content place) ≡ true }
    requires marked { IsMarked J.content fault place.scope }
    ensures smallest { IfOk result (λ p. IsSmallest fault (spot_of J.content p) (spot_of J.content place.entry)) }
    ensures leads { IfOk result (λ p. IsLedTo fault (spot_of J.content p) (spot_of J.content place.entry)) }
{
    match place.inside(alloc, fault)? {
        None => Ok(place),
        Some(found) => smallest(alloc, found, fault),
    }
}

/// Where the first fault of a document stands: at the smallest part that has it. Of some parts it is the first, in the
/// order in which the form has their keys.
///
/// # Errors
///
/// `AllocError` if memory runs out.
///
/// Its contract leaves open: which place, where several parts have the fault.
pub fn place_of<'a, J: JsonTree>(
    alloc: Global,
    json: &'a J,
    fault: DocFault,
) -> Result<Place<'a, J>, AllocError>
    requires { document_of (J.content json.now) ≡ Err fault }
    ensures stands { IfOk result (λ p. StandsAt fault (spot_of J.content p) (J.content json.now)) }
    ensures first { IfOk result (λ p. IsFirst fault (spot_of J.content p) (J.content json.now)) }
{
    smallest(alloc, Place::whole(alloc, json), fault)
}
