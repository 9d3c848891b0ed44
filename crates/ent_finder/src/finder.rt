//! The finder over boxed modules.

ghost use Rattle.std.specs.Prelude.{◌≡◌, ◌<◌, ◌≤◌, length, map, vec_len};
ghost use Rattle.ent_finder.specs.Slots.{Slots, module_at};

use crate::boxed::{count_in, document_in, find_in, holds_in, slot_in, swap_in};
use crate::module::PolicyFinderModule;
use crate::policies::Policies;
use crate::slot::DocSlot;
use ent_policy::{DocKey, Document, Reference};
use std::alloc::AllocError;

/// Asks its modules in their order.
#[derive(Drop)]
pub struct PolicyFinder {
    modules: Vec<Box<dyn PolicyFinderModule>>,
}

impl PolicyFinder {
    /// The finder over 1 to 4 modules.
    ///
    /// Its contract is an equation.
    pub fn new(modules: Vec<Box<dyn PolicyFinderModule>>) -> PolicyFinder
        requires some { 1 ≤ vec_len modules }
        requires few { vec_len modules ≤ 4 }
        ensures { ⟦<PolicyFinder as Policies>⟧.slots result ≡ map {B = Slots} (λ b. slots b) modules.items }
    {
        PolicyFinder { modules }
    }

    /// The module of that number.
    fn module(&self, number: usize) -> &dyn PolicyFinderModule
        requires { number < length (⟦<PolicyFinder as Policies>⟧.slots self.now) }
        ensures { slots result.now ≡ module_at (⟦<PolicyFinder as Policies>⟧.slots self.now) number }
    {
        self.modules[number].as_ref()
    }
}

impl Policies for PolicyFinder {
    ghost slots = { λ f. map (λ b. (PolicyFinderModule-box b).slots b.value) f.modules.items };

    fn len(&self) -> usize {
        self.modules.len()
    }

    fn resolve(&self, reference: &Reference) -> Option<(usize, &Document)> {
        for (number, store) in self.modules.iter().enumerate() {
            if let Some(document) = find_in(store.as_ref(), reference) {
                return Some((number, document));
            }
        }
        None
    }

    fn holds(&self, number: usize, key: &DocKey) -> bool {
        holds_in(self.module(number), key)
    }

    fn document_at(&self, number: usize, key: &DocKey) -> Option<&Document> {
        let store = self.modules.get(number)?;
        document_in(store.as_ref(), key)
    }

    fn document_count(&self) -> u128 {
        let mut count = 0;
        for store in &self.modules {
            count += count_in(store.as_ref()) as u128;
        }
        count
    }

    fn swap_document(
        &mut self,
        number: usize,
        key: &DocKey,
        document: &mut Option<Document>,
    ) -> Result<(), AllocError> {
        swap_in(&mut self.modules[number], key, document)?;
        Ok(())
    }

    fn slot_at(&self, number: usize, index: usize) -> Option<&DocSlot> {
        slot_in(self.module(number), index)
    }
}
