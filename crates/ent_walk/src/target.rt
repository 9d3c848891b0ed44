//! Whether targets match.

ghost use Rattle.std.specs.Prelude.{◌≡◌, IfOk, map, true};
ghost use Rattle.std.specs.List.{list_all};
ghost use Rattle.ent_policy.specs.Typing.{all_of_is_typed, any_of_is_typed, match_is_typed, target_is_typed};
ghost use Rattle.ent_walk.specs.proofs_only.Comes.{Comes, in_walk};
ghost use Rattle.ent_walk.specs.proofs_only.Typed.{Tests};
ghost use Rattle.ent_walk.specs.Target.{all_of_part, all_part, any_of_part, is_indeterminate, match_part, matched};
ghost use Rattle.ent_walk.specs.Target.{one_part, target_part};
ghost use Rattle.ent_walk.specs.proofs_only.Target.{unless_indeterminate};

use crate::holds::holds_of_one;
use crate::walk::Walk;
use ent_policy::{AllOf, AnyOf, Match, Target};
use ent_request::{LentBag, LookUps, Status};
use std::alloc::{AllocError, Global};

/// Whether a target, or a part of one, matches a request (section 7.7).
#[derive(Clone, Copy, PartialEq, Eq)]
pub enum Targeted {
    Match,
    NoMatch,
    Indeterminate(Status),
}

impl<'a, L: LookUps> Walk<'a, L> {
    /// Whether a target matches (section 7.7). What fails in it is passed over unless it is Indeterminate; so it is with
    /// its elements.
    ///
    /// Its contract is an equation but for memory.
    #[tactic(auto, unfolding(ent_policy::specs::Typing::target_is_typed))]
    pub fn target(&mut self, target: &'a Target) -> Result<Targeted, AllocError>
        requires { target_is_typed target.now ≡ true }
        ensures comes { IfOk result (Comes
            (in_walk L.looks self.old target_part target.now) self.old self.new) }
    {
        let was_named = self.notes.is_named();
        let targeted = self.all_any_of(target.any_of.as_slice())?;
        self.settle(was_named, is_indeterminate(targeted));
        Ok(targeted)
    }

    // Whether all any-of elements match, up to the first that doesn't.
    fn all_any_of(&mut self, all: &'a [AnyOf]) -> Result<Targeted, AllocError>
        requires typed { list_all any_of_is_typed all.now ≡ true }
        ensures comes { IfOk result (Comes
            (all_part (map (in_walk L.looks self.old any_of_part) all.now)) self.old self.new) }
    {
        let mut so_far = Targeted::Match;
        for element in all {
            let targeted = self.any_of(element)?;
            if let Targeted::NoMatch = targeted {
                return Ok(targeted);
            }
            so_far = first_of(so_far, targeted);
        }
        Ok(so_far)
    }

    // Whether an any-of element matches.
    #[tactic(auto, unfolding(ent_policy::specs::Typing::any_of_is_typed))]
    fn any_of(&mut self, any_of: &'a AnyOf) -> Result<Targeted, AllocError>
        requires typed { any_of_is_typed any_of.now ≡ true }
        ensures comes { IfOk result (Comes
            (in_walk L.looks self.old any_of_part any_of.now) self.old self.new) }
    {
        let was_named = self.notes.is_named();
        let targeted = self.one_all_of(any_of.all_of.as_slice())?;
        self.settle(was_named, is_indeterminate(targeted));
        Ok(targeted)
    }

    // Whether one all-of element matches, up to the first that does.
    fn one_all_of(&mut self, alternatives: &'a [AllOf]) -> Result<Targeted, AllocError>
        requires typed { list_all all_of_is_typed alternatives.now ≡ true }
        ensures comes { IfOk result (Comes
            (one_part (map (in_walk L.looks self.old all_of_part) alternatives.now)) self.old self.new) }
    {
        let mut so_far = Targeted::NoMatch;
        for alternative in alternatives {
            let targeted = self.all_of(alternative)?;
            if let Targeted::Match = targeted {
                return Ok(targeted);
            }
            so_far = first_of(so_far, targeted);
        }
        Ok(so_far)
    }

    // Whether an all-of element matches.
    #[tactic(auto, unfolding(ent_policy::specs::Typing::all_of_is_typed))]
    fn all_of(&mut self, all_of: &'a AllOf) -> Result<Targeted, AllocError>
        requires typed { all_of_is_typed all_of.now ≡ true }
        ensures comes { IfOk result (Comes
            (in_walk L.looks self.old all_of_part all_of.now) self.old self.new) }
    {
        let was_named = self.notes.is_named();
        let targeted = self.all_matches(all_of.matches.as_slice())?;
        self.settle(was_named, is_indeterminate(targeted));
        Ok(targeted)
    }

    // Whether all matches are True, up to the first that is False.
    fn all_matches(&mut self, matches: &'a [Match]) -> Result<Targeted, AllocError>
        requires typed { list_all match_is_typed matches.now ≡ true }
        ensures comes { IfOk result (Comes
            (all_part (map (in_walk L.looks self.old match_part) matches.now)) self.old self.new) }
    {
        let mut so_far = Targeted::Match;
        for test in matches {
            let targeted = self.one_match(test)?;
            if let Targeted::NoMatch = targeted {
                return Ok(targeted);
            }
            so_far = first_of(so_far, targeted);
        }
        Ok(so_far)
    }

    // Whether a match is True. The question is noted.
    #[tactic(auto, unfolding(ent_policy::specs::Typing::match_is_typed))]
    fn one_match(&mut self, test: &Match) -> Result<Targeted, AllocError>
        requires typed { match_is_typed test.now ≡ true }
        ensures comes { IfOk result (Comes
            (in_walk L.looks self.old match_part test.now) self.old self.new) }
    {
        let bag = self.demanded(&test.designator)?;
        matched(self.alloc, test, &bag)
    }
}

// A match of a bag.
fn matched(alloc: Global, test: &Match, bag: &LentBag<'_>) -> Result<Targeted, AllocError>
    requires { Tests test.now.function test.now.literal bag.now.datatype }
    ensures { IfOk result (λ t. t ≡ matched test.now bag.now.values) }
{
    if holds_of_one(alloc, test.function, &test.literal, bag.values())? {
        return Ok(Targeted::Match);
    }
    if test.designator.must_be_present && bag.values().is_empty() {
        return Ok(Targeted::Indeterminate(Status::MissingAttribute));
    }
    Ok(Targeted::NoMatch)
}

// Whether it is Indeterminate.
fn is_indeterminate(targeted: Targeted) -> bool
    ensures { result ≡ is_indeterminate targeted }
{
    match targeted {
        Targeted::Indeterminate(_) => true,
        _ => false,
    }
}

// The first of two that is Indeterminate, else the second.
fn first_of(first: Targeted, second: Targeted) -> Targeted
    ensures { result ≡ unless_indeterminate first second }
{
    match first {
        Targeted::Indeterminate(_) => first,
        _ => second,
    }
}
