//! The documents that references find, each reference looked for once.

ghost use Rattle.std.specs.Prelude.{◌≡◌, IfOk, OnOk, Some, is_some, map};
ghost use Rattle.std.specs.FinMap.{entries};
ghost use Rattle.std.specs.Option.{option_map};
ghost use Rattle.ent_finder.specs.Finding.{most_recent};
ghost use Rattle.ent_finder.specs.Slots.{Docs, held};
ghost use Rattle.lint_links.specs.proofs_only.Found.{AreFound};
ghost use Rattle.lint_links.specs.proofs_only.Rows.{entry_of, numbered};

use crate::held::Held;
use crate::links::number_found;
use ent_finder::{MapDocs, PolicyFinderModule};
use ent_policy::Reference;
use std::alloc::{AllocError, Global};
use std::collections::BTreeMap;

/// The numbers of the documents that references find, of those references that were looked for.
#[derive(Drop)]
pub struct FoundDocuments {
    numbers: BTreeMap<Reference, Option<usize>>,
}

impl FoundDocuments {
    /// No reference was looked for.
    ///
    /// Its contract leaves open: what stands in it: any that found nothing would do.
    pub fn new(alloc: Global) -> FoundDocuments
        ensures { (docs : Docs) → AreFound docs result }
    {
        FoundDocuments {
            numbers: BTreeMap::new(alloc),
        }
    }

    /// The number of the document that a reference finds, if it finds one. It is looked for once.
    ///
    /// Its contract leaves open: what it keeps of references that were sought.
    pub fn number(
        &mut self,
        alloc: Global,
        docs: &MapDocs,
        all: &[Held<'_>],
        reference: &Reference,
    ) -> Result<Option<usize>, AllocError>
        requires listed { map entry_of all.now ≡ entries (held docs.now) }
        requires found { AreFound (held docs.now) self.old }
        ensures number { IfOk result (λ number. option_map (numbered (entries (held docs.now))) number
            ≡ option_map Some (most_recent reference.now (held docs.now))) }
        ensures found { OnOk result (AreFound (held docs.now) self.new) }
    {
        if let Some(number) = self.numbers.get(reference) {
            return Ok(*number);
        }
        let number = number_found(docs, all, reference);
        self.numbers.insert(reference.copy(alloc)?, number)?;
        Ok(number)
    }

    /// Whether a reference finds a document.
    ///
    /// Its contract is an equation.
    pub fn finds(&self, docs: &MapDocs, reference: &Reference) -> bool
        requires { AreFound (held docs.now) self.now }
        ensures { result ≡ is_some (most_recent reference.now (held docs.now)) }
    {
        match self.numbers.get(reference) {
            Some(number) => number.is_some(),
            None => docs.find_reference(reference).is_some(),
        }
    }
}
