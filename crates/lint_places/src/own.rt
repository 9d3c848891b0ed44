//! The parts of a document that have a fault by themselves.

ghost use Rattle.std.specs.Prelude.{◌≡◌, ◌++◌, ◌∷◌, [], IfOk, OnOk, Some, map};
ghost use Rattle.std.specs.List.{list_any};
ghost use Rattle.serde_json.specs.Find.{get};
ghost use Rattle.lint_places.specs.Faults.{faulty, own_by};
ghost use Rattle.lint_places.specs.Parts.{item};
ghost use Rattle.lint_places.specs.Places.{at_key, at_keys, at_numbers, in_list, inside, is_fault, listed, scope_in};
ghost use Rattle.lint_places.specs.proofs_only.Rows.{links_in};
ghost use Rattle.lint_places.specs.Told.{scope_told, told};
ghost use Rattle.lint_places.specs.Views.{fault_at, scope_of, spot_of};

use crate::faulty::is_fault;
use crate::members::listed;
use crate::part::Part;
use crate::parts_told::{scope_told, told};
use crate::place::{Place, pointer_to, scope_at};
use crate::scope::Scope;
use ent_json::JsonTree;
use ent_policy::DocFault;
use std::alloc::{AllocError, Global};

/// A part of a document, and a fault that it has.
#[derive(Drop)]
pub struct Faulty<'a, J> {
    /// The fault.
    pub fault: DocFault,
    /// The part, and where it stands.
    pub place: Place<'a, J>,
}

/// The fault that is told of a part, unless the same is told of the definitions around it alone.
fn own_fault<J: JsonTree>(
    alloc: Global,
    part: Part,
    scope: &Scope<'_, J>,
    json: &J,
) -> Result<Option<DocFault>, AllocError>
    ensures { IfOk result (λ o. o ≡ own_by (told part (scope_of J.content scope.now) (J.content json.now))
        (scope_told (scope_of J.content scope.now))) }
{
    let Some(fault) = told(alloc, part, scope, json)? else {
        return Ok(None);
    };
    if is_fault(fault, scope_told(alloc, scope)?) {
        return Ok(None);
    }
    Ok(Some(fault))
}

impl<'a, J: JsonTree> Place<'a, J> {
    /// The definitions around what stands in this part.
    pub(crate) fn scope_inside(&self, alloc: Global) -> Result<Scope<'a, J>, AllocError>
        ensures { IfOk result (λ s. scope_of J.content s
            ≡ scope_in self.now.part (scope_of J.content self.now.scope) (J.content self.now.json.now)) }
    {
        match self.part {
            Part::Policy => Ok(Scope::of(alloc, self.json.get("VariableDefinition"))),
            Part::Set => Ok(Scope::nowhere(alloc)),
            _ => self.scope.copied(alloc),
        }
    }

    /// Puts what stands at the key of this part last, if it has a fault of its own; the definitions are those around
    /// what stands in it.
    fn note_at_key(
        &self,
        alloc: Global,
        scope: &Scope<'a, J>,
        key: &str,
        part: Part,
        found: &mut Vec<Faulty<'a, J>>,
    ) -> Result<(), AllocError>
        requires { scope_of J.content scope.now
            ≡ scope_in self.now.part (scope_of J.content self.now.scope) (J.content self.now.json.now) }
        ensures { OnOk result (map (fault_at J.content) found.new.items
            ≡ map (fault_at J.content) found.old.items ++ faulty
            (at_key (spot_of J.content self.now) (key.now, part) (get key.now (J.content self.now.json.now)))) }
    {
        let Some(json) = self.json.get(key) else {
            return Ok(());
        };
        let scope = scope_at(alloc, part, scope)?;
        let Some(fault) = own_fault(alloc, part, &scope, json)? else {
            return Ok(());
        };
        let pointer = pointer_to(alloc, self.pointer.as_str(), key)?;
        let place = Place {
            pointer,
            part,
            scope,
            json,
        };
        found.push(Faulty { fault, place })?;
        Ok(())
    }

    /// Puts the parts at the keys of this part last that have a fault of their own.
    fn note_at_keys(&self, alloc: Global, found: &mut Vec<Faulty<'a, J>>) -> Result<(), AllocError>
        ensures { OnOk result (map (fault_at J.content) found.new.items
            ≡ map (fault_at J.content) found.old.items ++ faulty (at_keys (spot_of J.content self.now))) }
    {
        let scope = self.scope_inside(alloc)?;
        for row in self.part.rows() {
            self.note_at_key(alloc, &scope, row.0, row.1, found)?;
        }
        Ok(())
    }

    /// Puts the member of that number of this list last, if it has a fault of its own.
    fn note_member(
        &self,
        alloc: Global,
        links: &[Vec<usize>],
        number: usize,
        part: Part,
        json: &'a J,
        found: &mut Vec<Faulty<'a, J>>,
    ) -> Result<(), AllocError>
        requires { map (λ row. row.items) links.now
            ≡ links_in self.now.part (listed (Some (J.content self.now.json.now))) }
        ensures { OnOk result (map (fault_at J.content) found.new.items
            ≡ map (fault_at J.content) found.old.items ++ faulty
            (at_numbers (spot_of J.content self.now) part (listed (Some (J.content self.now.json.now))) number
            (J.content json.now ∷ []))) }
    {
        let scope = self.scope_of_member(alloc, links, number)?;
        let Some(fault) = own_fault(alloc, part, &scope, json)? else {
            return Ok(());
        };
        let name = format!(in alloc; "{number}")?;
        let pointer = pointer_to(alloc, self.pointer.as_str(), name.as_str())?;
        let place = Place {
            pointer,
            part,
            scope,
            json,
        };
        found.push(Faulty { fault, place })?;
        Ok(())
    }

    /// Puts the members of this list last that have a fault of their own.
    fn note_in_list(&self, alloc: Global, found: &mut Vec<Faulty<'a, J>>) -> Result<(), AllocError>
        ensures { OnOk result (map (fault_at J.content) found.new.items
            ≡ map (fault_at J.content) found.old.items
            ++ faulty (in_list (spot_of J.content self.now) (item self.now.part))) }
    {
        let Some(part) = self.part.item() else {
            return Ok(());
        };
        let links = self.links(alloc)?;
        for (number, json) in listed(Some(self.json)).iter().enumerate() {
            self.note_member(alloc, links.as_slice(), number, part, json, found)?;
        }
        Ok(())
    }

    /// The parts one level inside of this one that have a fault of their own.
    pub(crate) fn faulty_inside(&self, alloc: Global) -> Result<Vec<Faulty<'a, J>>, AllocError>
        ensures { IfOk result (λ v. map (fault_at J.content) v.items ≡ faulty (inside (spot_of J.content self.now))) }
    {
        let mut found = Vec::new(alloc);
        self.note_at_keys(alloc, &mut found)?;
        self.note_in_list(alloc, &mut found)?;
        Ok(found)
    }
}

/// Whether one of the parts has the fault.
pub(crate) fn is_inside<J: JsonTree>(parts: &[Faulty<'_, J>], fault: DocFault) -> bool
    ensures { result ≡ list_any (λ part. is_fault fault (Some part.fault)) parts.now }
{
    parts.iter().any(|part| is_fault(fault, Some(part.fault)))
}
