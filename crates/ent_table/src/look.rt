//! What keys give before an edit, and which of them give another after it.

ghost use Rattle.std.specs.Prelude.{◌≡◌, IfOk, OnErr, OnOk, filter};
ghost use Rattle.std.specs.List.{AllByRecursion};
ghost use Rattle.std.specs.Option.{option_copied, option_eq};
ghost use Rattle.ent_policy.specs.Same.{same_document};
ghost use Rattle.ent_cells.specs.Cell.{HasReadKeys};
ghost use Rattle.ent_request.specs.Held.{looks_in};
ghost use Rattle.ent_table.specs.proofs_only.Change.{Becomes, Stays};
ghost use Rattle.ent_table.specs.proofs_only.Exchange.{CountsSame, IsThere, IsWithin, OnlyHeld, document_in};
ghost use Rattle.ent_table.specs.proofs_only.Exchange.{taken, with_exchange};
ghost use Rattle.ent_table.specs.proofs_only.Look.{AreChanged, IsSeen, asks, environment_keys};
ghost use Rattle.ent_table.specs.proofs_only.Look.{finds_another, found_by, is_another, keys_in, look_of, which};
ghost use Rattle.ent_table.specs.Fresh.{state_of};

use crate::review_parts::ReviewParts;
use ent_eval::{Evaluates, Exchange, ReadKey};
use ent_finder::{AttrKey, Attributes, Policies};
use ent_policy::{Document, Reference};
use ent_values::{Bag, Date, DateTime, Items, Time, Value};
use std::alloc::{AllocError, Global};

/// Which of the two documents that are exchanged is found.
#[derive(Clone, Copy, PartialEq, Eq)]
pub(crate) enum OfTwo {
    /// The one that stands there, or none as there.
    Former,
    /// Not that, but the one that is to stand there, or none as there.
    Next,
    /// Neither of them.
    Neither,
}

/// What a key gives, kept over an exchange. A document isn't kept: of what a reference finds it is told which of the
/// two it is that are exchanged.
#[derive(PartialEq, Eq, Drop)]
pub(crate) enum Look {
    Root(Option<Reference>),
    Document(OfTwo),
    Values(Items<Value>),
    Date(Option<Date>),
    Time(Option<Time>),
    DateTime(Option<DateTime>),
}

/// A key, and what it gave.
#[derive(Drop)]
pub(crate) struct Seen {
    pub(crate) key: ReadKey,
    pub(crate) look: Look,
}

/// The keys of the environment.
fn environment_keys(alloc: Global) -> Result<Items<ReadKey>, AllocError>
    ensures { IfOk result (λ keys. keys ≡ environment_keys) }
{
    let mut keys = Items::with_capacity(alloc, 3)?;
    keys.push(ReadKey::CurrentDate)?;
    keys.push(ReadKey::CurrentTime)?;
    keys.push(ReadKey::CurrentDateTime)?;
    Ok(keys)
}

/// An equal root.
fn copied(alloc: Global, root: &Option<Reference>) -> Result<Option<Reference>, AllocError>
    ensures { IfOk result (λ copy. copy ≡ root.now) }
{
    match root {
        None => Ok(None),
        Some(root) => Ok(Some(root.copy(alloc)?)),
    }
}

/// Whether there are two documents and they are equal, or none.
fn is_same(first: Option<&Document>, second: Option<&Document>) -> bool
    ensures { result ≡ option_eq same_document (option_copied first.entry) (option_copied second.entry) }
{
    match (first, second) {
        (None, None) => true,
        (Some(first), Some(second)) => *first == *second,
        _ => false,
    }
}

/// Which of two documents is found, or that neither is.
fn which(former: Option<&Document>, next: Option<&Document>, found: Option<&Document>) -> OfTwo
    ensures { result
        ≡ which (option_copied former.entry) (option_copied next.entry) (option_copied found.entry) }
{
    if is_same(former, found) {
        OfTwo::Former
    } else if is_same(next, found) {
        OfTwo::Next
    } else {
        OfTwo::Neither
    }
}

/// The document that is to be exchanged, if it is one.
fn document(exchange: &Exchange) -> Option<&Document>
    ensures { option_copied result ≡ document_in exchange.now }
{
    match exchange {
        Exchange::Document(_, _, document) => document.as_ref(),
        Exchange::Row(_, _, _) | Exchange::Root(_) | Exchange::Environment(_) => None,
    }
}

impl<E: Evaluates> ReviewParts<E> {
    /// Makes an exchange, which then has what was there before, and tells which of the keys that cells read give
    /// another for it. After a refusal all is as before. It evaluates nothing.
    pub(crate) fn exchange_and_tell(
        &mut self,
        exchange: &mut Exchange,
    ) -> Result<Items<ReadKey>, AllocError>
        requires { IsWithin (state_of self.old) exchange.old }
        ensures made { OnOk result (Becomes (λ s. with_exchange s exchange.old) self.old self.new) }
        ensures taken { OnOk result (exchange.new ≡ taken (state_of self.old) exchange.old) }
        ensures again { OnOk result (IsWithin (state_of self.new) exchange.new) }
        ensures there { OnOk result (IsThere self.new exchange.new) }
        ensures changed { IfOk result
            (AreChanged (state_of self.old) exchange.old self.new.table.cells.kept) }
        ensures kept { OnErr result (Stays self.old self.new) }
        ensures rest { OnlyHeld self.old self.new }
        ensures counted { CountsSame self.old self.new }
    {
        let seen = self.seen(exchange)?;
        self.exchange(exchange)?;
        match self.changed(seen, exchange) {
            Ok(changed) => Ok(changed),
            Err(error) => {
                self.take_back(exchange);
                Err(error)
            }
        }
    }

    /// Of the keys that an exchange may change, what they give.
    fn seen(&self, exchange: &Exchange) -> Result<Vec<Seen>, AllocError>
        requires { IsWithin (state_of self.now) exchange.now }
        ensures keys { IfOk result
            (λ seen. HasReadKeys (asks exchange.now) self.now.table.cells.kept (keys_in seen.items)) }
        ensures looks { IfOk result
            (λ seen. AllByRecursion (IsSeen (state_of self.now) exchange.now) seen.items) }
    {
        let mut seen = Vec::new(self.alloc);
        for key in self.keys_asked(exchange)?.into_vec() {
            let look = self.look(exchange, &key)?;
            seen.push(Seen { key, look })?;
        }
        Ok(seen)
    }

    /// The keys that an exchange may change, each that a cell reads among them.
    fn keys_asked(&self, exchange: &Exchange) -> Result<Items<ReadKey>, AllocError>
        ensures { IfOk result (HasReadKeys (asks exchange.now) self.now.table.cells.kept) }
    {
        match exchange {
            Exchange::Document(_, key, _) => {
                self.table.cells.keys_of_policy(key.kind, key.id.as_str())
            }
            Exchange::Row(_, key, _) => self.table.cells.keys_of_row(key),
            Exchange::Root(_) => Items::of_one(self.alloc, ReadKey::Root),
            Exchange::Environment(_) => environment_keys(self.alloc),
        }
    }

    /// What a key gives before an exchange.
    fn look(&self, exchange: &Exchange, key: &ReadKey) -> Result<Look, AllocError>
        requires { IsWithin (state_of self.now) exchange.now }
        ensures { IfOk result (λ look. look ≡ look_of (state_of self.now) exchange.now key.now) }
    {
        let environment = self.pdp().environment();
        match key {
            ReadKey::Root => Ok(Look::Root(copied(self.alloc, self.pdp().root())?)),
            ReadKey::Ref(reference) => {
                let former = self.standing(exchange);
                let of_two = which(former, document(exchange), self.found(reference));
                Ok(Look::Document(of_two))
            }
            ReadKey::Attr(key) => Ok(Look::Values(self.given(key)?)),
            ReadKey::CurrentDate => Ok(Look::Date(environment.date())),
            ReadKey::CurrentTime => Ok(Look::Time(environment.time())),
            ReadKey::CurrentDateTime => Ok(Look::DateTime(environment.date_time())),
        }
    }

    /// The document that a reference finds.
    fn found(&self, reference: &Reference) -> Option<&Document>
        ensures { option_copied result
            ≡ (looks_in (state_of self.now).held).document reference.now }
    {
        let (_, document) = self.pdp().policies().resolve(reference)?;
        Some(document)
    }

    /// The document that stands where one is to be exchanged.
    fn standing(&self, exchange: &Exchange) -> Option<&Document>
        requires { IsWithin (state_of self.now) exchange.now }
        ensures { option_copied result ≡ document_in (taken (state_of self.now) exchange.now) }
    {
        match exchange {
            Exchange::Document(number, key, _) => self.pdp().policies().document_at(*number, key),
            Exchange::Row(_, _, _) | Exchange::Root(_) | Exchange::Environment(_) => None,
        }
    }

    /// The values that a key gives.
    fn given(&self, key: &AttrKey) -> Result<Items<Value>, AllocError>
        ensures { IfOk result
            (λ values. values ≡ (looks_in (state_of self.now).held).values key.now) }
    {
        let mut bag = Bag::new(self.alloc, key.datatype);
        self.pdp().attributes().look(key, &mut bag)?;
        Ok(bag.into_values())
    }

    /// The keys that give another after an exchange than before it, which has what was there before.
    fn changed(&self, seen: Vec<Seen>, exchange: &Exchange) -> Result<Items<ReadKey>, AllocError>
        requires { IsWithin (state_of self.now) exchange.now }
        ensures { IfOk result (λ keys. keys
            ≡ keys_in (filter (is_another (state_of self.now) exchange.now) seen.items)) }
    {
        let mut changed = Items::new(self.alloc);
        for seen in seen {
            if self.is_another(&seen, exchange)? {
                changed.push(seen.key)?;
            }
        }
        Ok(changed)
    }

    /// Whether a key gives another after an exchange than before it, which has what was there before.
    fn is_another(&self, seen: &Seen, exchange: &Exchange) -> Result<bool, AllocError>
        requires { IsWithin (state_of self.now) exchange.now }
        ensures { IfOk result
            (λ another. another ≡ is_another (state_of self.now) exchange.now seen.now) }
    {
        match &seen.look {
            Look::Document(of_two) => Ok(self.finds_another(&seen.key, *of_two, exchange)),
            Look::Root(_) | Look::Values(_) | Look::Date(_) | Look::Time(_) | Look::DateTime(_) =>
                Ok(seen.look != self.look(exchange, &seen.key)?),
        }
    }

    /// The document that a key finds, if it is a reference that finds one.
    fn found_by(&self, key: &ReadKey) -> Option<&Document>
        ensures { option_copied result ≡ found_by (state_of self.now) key.now }
    {
        match key {
            ReadKey::Ref(reference) => self.found(reference),
            ReadKey::Root
            | ReadKey::Attr(_)
            | ReadKey::CurrentDate
            | ReadKey::CurrentTime
            | ReadKey::CurrentDateTime => None,
        }
    }

    /// Whether a key finds another document after an exchange, by one comparison.
    fn finds_another(&self, key: &ReadKey, of_two: OfTwo, exchange: &Exchange) -> bool
        requires { IsWithin (state_of self.now) exchange.now }
        ensures { result ≡ finds_another (document_in exchange.now)
            (document_in (taken (state_of self.now) exchange.now)) of_two
            (found_by (state_of self.now) key.now) }
    {
        let found = self.found_by(key);
        match of_two {
            OfTwo::Former => !is_same(document(exchange), found),
            OfTwo::Next => !is_same(self.standing(exchange), found),
            OfTwo::Neither => is_same(self.standing(exchange), found),
        }
    }
}
