//! Causes, each once.

ghost use Rattle.std.specs.Prelude.{◌≡◌, ◌++◌, [], IfOk, IsTrue, None, OnOk, Some, if◌then◌else◌, is_some, slice_get};
ghost use Rattle.std.specs.Option.{option_to_list};
ghost use Rattle.indexmap.specs.IndexSet.{IsUnique};
ghost use Rattle.ent_trace.specs.proofs_only.Met.{all_passed, at_place, with_failing};
ghost use Rattle.ent_request.specs.Causes.{named_first, same_cause, with_cause};
ghost use Rattle.ent_request.specs.proofs_only.Reason.{cause_of};

use crate::trail::Trail;
use ent_request::{Cause, Reason, copied_text, same_issuer};
use ent_values::{Items, Text};
use indexmap::IndexSet;
use std::alloc::{AllocError, Global};
use std::collections::HashMap;
use std::marker::Model;

/// So many causes are looked at before one is taken for new.
const MOST_LOOKED_AT: u64 = 8;

// Causes, each once, in the order in which they were met first, and where the first stands that isn't passed over. For
// a number that is made of a cause there is the place of one that it was made of, so that one that is met again is
// found without a copy: it is only where to look first.
#[derive(Drop)]
pub(crate) struct Distinct {
    causes: IndexSet<Cause>,
    places: HashMap<u64, usize>,
    named: Option<usize>,
}

impl Model for Distinct {
    ghost use Rattle.ent_trace.specs.proofs_only.Met.{Met, at_place};

    ghost Value = { Met };

    ghost view = { λ d. record { causes = d.causes.keys; named = at_place d.causes.keys d.named } };
}

impl Distinct {
    // No causes, for which nothing is allocated.
    pub(crate) fn new(alloc: Global) -> Distinct
        ensures { result ≡ record { causes = []; named = None } }
    {
        Distinct {
            causes: IndexSet::new(alloc),
            places: HashMap::new(alloc),
            named: None,
        }
    }

    // One cause more, if it isn't there yet: what failed, where the evaluation is. It is named where none is.
    pub(crate) fn note(
        &mut self,
        alloc: Global,
        trail: &Trail,
        rule: &Option<Text>,
        reason: Reason<'_>,
    ) -> Result<(), AllocError>
        ensures { OnOk result (self.new
            ≡ with_failing self.old (cause_of trail.now rule.now reason.entry)) }
    {
        let is_named = self.is_named();
        let place = met(
            alloc,
            &mut self.causes,
            &mut self.places,
            trail,
            rule,
            reason,
        )?;
        self.named = named_after(is_named, self.named, place);
        Ok(())
    }

    // Whether one isn't passed over.
    pub(crate) fn is_named(&self) -> bool
        ensures { result ≡ is_some self.now.named }
    {
        match self.named {
            None => false,
            Some(place) => match self.causes.get_index(place) {
                None => false,
                Some(_) => true,
            },
        }
    }

    // Passes over all that were met so far.
    pub(crate) fn pass(&mut self)
        ensures { self.new ≡ all_passed self.old }
    {
        self.named = None;
    }

    // The causes in their order, the one that is named before the others.
    pub(crate) fn into_items(mut self, alloc: Global) -> Result<Items<Cause>, AllocError>
        ensures { IfOk result (λ cs. cs ≡ named_first self.named self.causes) }
    {
        let count = self.causes.len();
        let named = taken(&mut self.causes, self.named);
        listed(alloc, count, named, self.causes)
    }
}

// The place of the cause that is named, where one more was met: that of the old one, if one is named.
fn named_after(is_named: bool, named: Option<usize>, place: usize) -> Option<usize>
    ensures { result ≡ (if is_named then named else Some place) }
{
    if is_named { named } else { Some(place) }
}

// The cause that is named, taken out of the others.
fn taken(causes: &mut IndexSet<Cause>, named: Option<usize>) -> Option<Cause>
    requires { IsUnique same_cause causes.old }
    ensures named { result ≡ at_place causes.old.keys named }
    ensures others { option_to_list result ++ causes.new.keys ≡ named_first result causes.old.keys }
{
    match named {
        None => None,
        Some(place) => taken_at(causes, place),
    }
}

// The cause at a place, taken out of the others.
fn taken_at(causes: &mut IndexSet<Cause>, place: usize) -> Option<Cause>
    requires { IsUnique same_cause causes.old }
    ensures cause { result ≡ slice_get causes.old.keys place }
    ensures others { option_to_list result ++ causes.new.keys ≡ named_first result causes.old.keys }
{
    causes.shift_remove_index(place)
}

// The place of a cause: what failed, where the evaluation is. It is put behind the others if it isn't there yet.
fn met(
    alloc: Global,
    causes: &mut IndexSet<Cause>,
    places: &mut HashMap<u64, usize>,
    trail: &Trail,
    rule: &Option<Text>,
    reason: Reason<'_>,
) -> Result<usize, AllocError>
    ensures causes { OnOk result (causes.new.keys
        ≡ with_cause causes.old.keys (cause_of trail.now rule.now reason.entry)) }
    ensures place { IfOk result (λ place.
        slice_get causes.new.keys place ≡ Some (cause_of trail.now rule.now reason.entry)) }
{
    match find(causes, places, trail, rule, reason) {
        Ok(place) => Ok(place),
        Err(number) => {
            let cause = made(alloc, trail, rule, reason)?;
            let (place, _) = causes.insert_full(cause)?;
            places.insert(number, place)?;
            Ok(place)
        }
    }
}

// The place where a cause stands, if it is found, or else a number by which it may be found from now on.
fn find(
    causes: &IndexSet<Cause>,
    places: &HashMap<u64, usize>,
    trail: &Trail,
    rule: &Option<Text>,
    reason: Reason<'_>,
) -> Result<usize, u64>
    ensures { IfOk result (λ place.
        slice_get causes.now.keys place ≡ Some (cause_of trail.now rule.now reason.entry)) }
{
    let first = reason.number(trail.number(), rule);
    for step in 0..MOST_LOOKED_AT {
        let number = first.wrapping_add(step);
        match places.get(&number) {
            None => return Err(number),
            Some(place) => {
                if is_at(causes, *place, trail, rule, reason) {
                    return Ok(*place);
                }
            }
        }
    }
    Err(first)
}

// What is told of what failed there.
fn made(
    alloc: Global,
    trail: &Trail,
    rule: &Option<Text>,
    reason: Reason<'_>,
) -> Result<Cause, AllocError>
    ensures { IfOk result (λ c. c ≡ cause_of trail.now rule.now reason.entry) }
{
    Ok(Cause {
        path: trail.path(alloc)?,
        rule: copied_text(alloc, rule)?,
        status: reason.status(),
        what: reason.what(alloc)?,
    })
}

// Whether the cause at a place of these is what failed there.
fn is_at(
    causes: &IndexSet<Cause>,
    place: usize,
    trail: &Trail,
    rule: &Option<Text>,
    reason: Reason<'_>,
) -> bool
    ensures { IsTrue result
        → slice_get causes.now.keys place ≡ Some (cause_of trail.now rule.now reason.entry) }
{
    match causes.get_index(place) {
        None => false,
        Some(cause) => is_cause(cause, trail, rule, reason),
    }
}

// Whether a cause is what failed there.
fn is_cause(cause: &Cause, trail: &Trail, rule: &Option<Text>, reason: Reason<'_>) -> bool
    ensures { IsTrue result → cause.now ≡ cause_of trail.now rule.now reason.entry }
{
    cause.what.is_of(reason)
        && cause.status == reason.status()
        && same_issuer(&cause.rule, rule)
        && trail.has_keys(cause.path.as_slice())
}

// The causes of a set behind the one that is named: so many are expected.
fn listed(
    alloc: Global,
    count: usize,
    named: Option<Cause>,
    causes: IndexSet<Cause>,
) -> Result<Items<Cause>, AllocError>
    ensures { IfOk result (λ cs. cs ≡ option_to_list named ++ causes.keys) }
{
    let mut list = Items::with_capacity(alloc, count)?;
    if let Some(cause) = named {
        list.push(cause)?;
    }
    for cause in causes {
        list.push(cause)?;
    }
    Ok(list)
}
