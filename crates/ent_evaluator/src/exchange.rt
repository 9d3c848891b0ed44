//! Exchanges of what is held, over which what is remembered stays true.

ghost use Rattle.std.specs.Prelude.{◌≡◌, ◌<◌, IsSome, None, OnErr, OnOk, length};
ghost use Rattle.std.specs.Option.{ForSome};
ghost use Rattle.ent_values.specs.Bags.{AllOfType};
ghost use Rattle.ent_policy.specs.Key.{key_of};
ghost use Rattle.ent_request.specs.Change.{other_document, other_values};
ghost use Rattle.ent_eval.specs.Exchange.{FitsHeld, HasPlace, document_held, held_with, row_in, slot_in};
ghost use Rattle.ent_eval.specs.Exchange.{taken_from, values_held};
ghost use Rattle.ent_eval.specs.LooksOf.{held_by};
ghost use Rattle.ent_evaluator.specs.proofs_only.Parts.{OnlyHeld, OnlySlots, OnlySources, StillKnows};

use crate::parts::EvaluatorParts;
use ent_eval::Exchange;
use ent_finder::{Attributes, Policies, RowKey};
use ent_policy::{DocKey, Document};
use ent_values::{Items, Value};
use std::alloc::AllocError;

impl<A: Attributes, P: Policies> EvaluatorParts<A, P> {
    /// Exchanges one thing of what is held with what stands there. What is remembered and may be others then is
    /// forgotten first.
    pub(crate) fn exchange(&mut self, exchange: &mut Exchange) -> Result<(), AllocError>
        requires { FitsHeld (held_by self.old.pdp) exchange.old }
        ensures made { OnOk result (held_by self.new.pdp ≡ held_with (held_by self.old.pdp) exchange.old) }
        ensures taken { OnOk result (exchange.new ≡ taken_from (held_by self.old.pdp) exchange.old) }
        ensures again { OnOk result (FitsHeld (held_by self.new.pdp) exchange.new) }
        ensures there { OnOk result (HasPlace self.new.pdp exchange.new) }
        ensures absent { OnErr result (¬ HasPlace self.old.pdp exchange.old) }
        ensures kept { OnErr result (held_by self.new.pdp ≡ held_by self.old.pdp) }
        ensures knows { StillKnows self.old self.new }
        ensures rest { OnlyHeld self.old self.new }
    {
        match exchange {
            Exchange::Document(number, key, document) => {
                self.memory.forget_documents(self.alloc);
                self.exchange_document(*number, key, document)
            }
            Exchange::Row(number, key, values) => {
                self.memory.forget_name(self.alloc, &key.entity);
                self.exchange_row(*number, key, values)
            }
            Exchange::Root(root) => {
                self.memory.forget_documents(self.alloc);
                let before = self.pdp.set_root(root.take());
                *root = before;
                Ok(())
            }
            Exchange::Environment(environment) => {
                self.memory.forget_documents(self.alloc);
                let before = self.pdp.set_environment(*environment);
                *environment = before;
                Ok(())
            }
        }
    }

    /// Exchanges what a module holds under a key with `document`. Once this is done, it can be done again without
    /// memory.
    fn exchange_document(
        &mut self,
        number: usize,
        key: &DocKey,
        document: &mut Option<Document>,
    ) -> Result<(), AllocError>
        requires number { number < length (held_by self.old.pdp).modules }
        requires key { ForSome document.old (λ d. key_of d ≡ key.now) }
        ensures swapped { OnOk result
            (held_by self.new.pdp ≡ other_document (held_by self.old.pdp) number key.now document.old) }
        ensures taken { OnOk result (document.new ≡ document_held (held_by self.old.pdp) number key.now) }
        ensures own { ForSome document.new (λ d. key_of d ≡ key.now) }
        ensures there { OnOk result (IsSome (slot_in self.new.pdp number key.now)) }
        ensures absent { OnErr result (slot_in self.old.pdp number key.now ≡ None) }
        ensures kept { OnErr result (held_by self.new.pdp ≡ held_by self.old.pdp) }
        ensures modules { length (held_by self.new.pdp).modules ≡ length (held_by self.old.pdp).modules }
        ensures rest { OnlySlots self.old self.new }
    {
        self.pdp
            .policies_mut()
            .swap_document(number, key, document)?;
        Ok(())
    }

    /// Exchanges what a module has in the row of a key with `values`. Once this is done, it can be done again without
    /// memory.
    fn exchange_row(
        &mut self,
        number: usize,
        key: &RowKey,
        values: &mut Items<Value>,
    ) -> Result<(), AllocError>
        requires number { number < length (held_by self.old.pdp).sources }
        requires types { AllOfType key.now.datatype values.old }
        ensures swapped { OnOk result
            (held_by self.new.pdp ≡ other_values (held_by self.old.pdp) number key.now values.old) }
        ensures taken { OnOk result (values.new ≡ values_held (held_by self.old.pdp) number key.now) }
        ensures own { AllOfType key.now.datatype values.new }
        ensures there { OnOk result (IsSome (row_in self.new.pdp number key.now)) }
        ensures absent { OnErr result (row_in self.old.pdp number key.now ≡ None) }
        ensures kept { OnErr result (held_by self.new.pdp ≡ held_by self.old.pdp) }
        ensures modules { length (held_by self.new.pdp).sources ≡ length (held_by self.old.pdp).sources }
        ensures rest { OnlySources self.old self.new }
    {
        self.pdp.attributes_mut().swap_row(number, key, values)?;
        Ok(())
    }
}
