//! Edits of documents.

ghost use Rattle.std.specs.Prelude.{◌≡◌, IfOk};
ghost use Rattle.ent_policy.specs.Key.{key_of};
ghost use Rattle.ent_table.specs.proofs_only.Change.{Counted, Keeps, Makes, Tries};
ghost use Rattle.ent_table.specs.Fresh.{IsFresh, state_of};
ghost use Rattle.ent_table.specs.Step.{is_module, module_holds, module_lacks, policy_added};
ghost use Rattle.ent_table.specs.Step.{policy_replaced, policy_withdrawn};

use crate::edit::{Accepted, EditFault};
use crate::review_parts::ReviewParts;
use ent_eval::{Evaluates, Exchange};
use ent_finder::Policies;
use ent_policy::{DocKey, Document, is_bad_name};

impl<E: Evaluates> ReviewParts<E> {
    pub(crate) fn add_policy(
        &mut self,
        number: usize,
        document: Document,
    ) -> Result<Accepted, EditFault>
        requires { IsFresh self.old }
        ensures fresh { IsFresh self.new }
        ensures step { Makes (λ s. policy_added s number document) self.old self.new result }
        ensures counted { Counted (λ s. policy_added s number document) self.old self.new result }
        ensures tables { Keeps self.old self.new }
    {
        let key = self.key_to_add(number, &document)?;
        let documents = self.documents + 1;
        self.make(Exchange::Document(number, key, Some(document)), documents)
    }

    pub(crate) fn replace_policy(
        &mut self,
        number: usize,
        document: Document,
    ) -> Result<Accepted, EditFault>
        requires { IsFresh self.old }
        ensures fresh { IsFresh self.new }
        ensures step { Makes (λ s. policy_replaced s number document) self.old self.new result }
        ensures counted { Counted (λ s. policy_replaced s number document) self.old self.new result }
        ensures tables { Keeps self.old self.new }
    {
        let key = self.key_to_replace(number, &document)?;
        let documents = self.documents;
        self.make(Exchange::Document(number, key, Some(document)), documents)
    }

    pub(crate) fn withdraw_policy(
        &mut self,
        number: usize,
        key: DocKey,
    ) -> Result<Accepted, EditFault>
        requires { IsFresh self.old }
        ensures fresh { IsFresh self.new }
        ensures step { Makes (λ s. policy_withdrawn s number key) self.old self.new result }
        ensures counted { Counted (λ s. policy_withdrawn s number key) self.old self.new result }
        ensures tables { Keeps self.old self.new }
    {
        self.withdrawal_fault(number, &key)?;
        let documents = self.documents - 1;
        self.make(Exchange::Document(number, key, None), documents)
    }

    /// The key under which a document is added, or why it can't be.
    fn key_to_add(&self, number: usize, document: &Document) -> Result<DocKey, EditFault>
        requires { IsFresh self.now }
        ensures key { IfOk result (λ k. k ≡ key_of document.now) }
        ensures tested { Tries (λ s. policy_added s number document.now) self.now result }
    {
        let Ok(key) = document.key(self.alloc) else {
            return Err(EditFault::Memory);
        };
        if self.holds(number, &key) {
            return Err(EditFault::AlreadyThere);
        }
        if self.is_last() || self.documents >= self.limits.documents as u128 {
            return Err(EditFault::Limit);
        }
        if !self.is_module(number) {
            return Err(EditFault::UnknownModule);
        }
        Ok(key)
    }

    /// The key under which a document is replaced by this one, or why it can't be.
    fn key_to_replace(&self, number: usize, document: &Document) -> Result<DocKey, EditFault>
        ensures key { IfOk result (λ k. k ≡ key_of document.now) }
        ensures tested { Tries (λ s. policy_replaced s number document.now) self.now result }
    {
        let Ok(key) = document.key(self.alloc) else {
            return Err(EditFault::Memory);
        };
        if self.lacks(number, &key) {
            return Err(EditFault::NotThere);
        }
        if self.is_last() {
            return Err(EditFault::Limit);
        }
        if !self.is_module(number) {
            return Err(EditFault::UnknownModule);
        }
        Ok(key)
    }

    /// Why the document with a key can't be withdrawn, if it can't.
    fn withdrawal_fault(&self, number: usize, key: &DocKey) -> Result<(), EditFault>
        ensures { Tries (λ s. policy_withdrawn s number key.now) self.now result }
    {
        if self.lacks(number, key) {
            return Err(EditFault::NotThere);
        }
        if self.is_last() {
            return Err(EditFault::Limit);
        }
        if is_bad_name(key.id.as_str()) {
            return Err(EditFault::BadValue);
        }
        if !self.is_module(number) {
            return Err(EditFault::UnknownModule);
        }
        Ok(())
    }

    /// Whether there is a module of that number.
    fn is_module(&self, number: usize) -> bool
        ensures { result ≡ is_module (state_of self.now) number }
    {
        number < self.pdp().policies().len()
    }

    /// Whether there is a module of that number that holds a document with that key.
    fn holds(&self, number: usize, key: &DocKey) -> bool
        ensures { result ≡ module_holds (state_of self.now) number key.now }
    {
        self.is_module(number) && self.pdp().policies().holds(number, key)
    }

    /// Whether there is a module of that number that holds no document with that key.
    fn lacks(&self, number: usize, key: &DocKey) -> bool
        ensures { result ≡ module_lacks (state_of self.now) number key.now }
    {
        self.is_module(number) && !self.pdp().policies().holds(number, key)
    }
}
