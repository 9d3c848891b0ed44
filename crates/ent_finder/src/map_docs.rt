//! A module that holds its documents in memory.

ghost use Rattle.std.specs.Prelude.{◌≡◌};
ghost use Rattle.std.specs.FinMap as finmap;

use crate::hints::Hints;
use crate::list;
use crate::module::PolicyFinderModule;
use crate::slot::DocSlot;
use ent_policy::{DocKey, Document, Reference};
use std::alloc::{AllocError, Global};
use std::marker::Model;

/// A module that holds its documents in memory.
#[derive(Drop)]
pub struct MapDocs {
    alloc: Global,
    slots: Vec<DocSlot>,
    hints: Hints,
}

impl Model for MapDocs {
    ghost use Rattle.std.specs.Coded.{coded_option};
    ghost use Rattle.std.specs.FinMap as finmap;
    ghost use Rattle.ent_policy.specs.contracts.document.Document as document;
    ghost use Rattle.ent_policy.specs.contracts.key.DocKey as key;
    ghost use Rattle.ent_finder.specs.Slots.{Slots};

    ghost Value = { Slots };

    ghost coded = { finmap.code key.the_row.coded (coded_option document.the_row.coded) };

    ghost use Rattle.ent_finder.specs.Entry.{AreSorted, slots_of};

    ghost view = { λ m. slots_of m.slots.items };

    ghost invariant = { λ m. AreSorted m.slots.items };
}

impl MapDocs {
    /// No slots, for which nothing is allocated.
    ///
    /// Its contract is an equation.
    pub fn new(alloc: Global) -> MapDocs
        ensures { result ≡ finmap.empty }
    {
        MapDocs {
            alloc,
            slots: Vec::new(alloc),
            hints: Hints::new(),
        }
    }
}

impl PolicyFinderModule for MapDocs {
    ghost slots = { λ m. m };

    fn find_reference(&self, reference: &Reference) -> Option<&Document> {
        list::find_reference(&self.slots, &self.hints, reference)
    }

    fn swap_document(
        &mut self,
        key: &DocKey,
        document: &mut Option<Document>,
    ) -> Result<(), AllocError> {
        list::swap_document(self.alloc, &mut self.slots, key, document)?;
        Ok(())
    }

    fn slot_at(&self, index: usize) -> Option<&DocSlot> {
        self.slots.get(index)
    }
}
