ghost use Rattle.std.specs.Prelude.{◌≡◌, ◌+◌, ◌<◌, List, [], ◌∷◌, ◌++◌};
ghost use Rattle.ent_combine.specs.Choose.{choose, progress_of, progress_at_target, HasSeen};
ghost use Rattle.ent_combine.specs.proofs_only.Choose.{with_target};
ghost use Rattle.ent_combine.specs.Choose.{BadStays, OnlyBadStays, SeenTargetsAreEnough};
ghost use Rattle.ent_combine.specs.declared.chooser.TargetResult.{TargetResult};

use crate::combiner::Progress;
use std::marker::Model;

/// Whether a target applies to a request (section 7.7).
#[derive(Clone, Copy, Debug, PartialEq, Eq)]
pub enum TargetResult {
    /// It doesn't apply.
    NoMatch,
    /// It applies.
    Match,
    /// Something went wrong, so that nobody can say.
    Indeterminate,
}

/// Which of several children applies (appendix C.9).
#[derive(Clone, Copy, Debug, PartialEq, Eq)]
pub enum Choice {
    /// None of them: the set is NotApplicable.
    Nobody,
    /// The child at this place, the first being at 0, and no other.
    Only(usize),
    /// More than one, or a target is Indeterminate: so is the set.
    Bad,
}

/// Takes the results of the children's targets in order, and finds the only child that applies.
///
/// After `Stop` a caller need take nothing more: [`bad_choice_is_final`].
#[derive(Drop)]
pub struct Chooser {
    taken: usize,
    choice: Choice,
}

impl Model for Chooser {
    ghost use Rattle.ent_combine.specs.Chosen.{Chosen};

    ghost Value = { Chosen };

    ghost view = { λ c. record { taken = c.taken; choice = c.choice } };
}

impl Chooser {
    /// The most results that a chooser takes, as many as a set has children at most.
    pub const MOST: usize = 256;

    /// A chooser that has taken nothing.
    ///
    /// Its contract is an equation.
    pub fn new() -> Chooser
        ensures { HasSeen result [] }
    {
        Chooser {
            taken: 0,
            choice: Choice::Nobody,
        }
    }

    /// Takes the result of one more child's target. `Stop` comes at the first Indeterminate and at
    /// the second match, and from then on.
    ///
    /// Its contract leaves open: which value stands for the children so far; what is told at each is said whole.
    pub fn take(&mut self, target: TargetResult) -> Progress
        requires { self.old.taken < Chooser.MOST }
        ensures seen { (ts : List TargetResult) → HasSeen self.old ts → HasSeen self.new (ts ++ target ∷ []) }
        ensures progress { (ts : List TargetResult) → HasSeen self.old ts → result ≡ progress_at_target ts target }
    {
        self.choice = choice_with(self.choice, self.taken, target);
        self.taken += 1;
        progress_with(self.choice)
    }

    /// Which of the children whose targets were taken applies (appendix C.9).
    ///
    /// Its contract leaves open: what is told of a value that stands for no list of children, which no caller comes to.
    pub fn finish(&self) -> Choice
        ensures { (ts : List TargetResult) → HasSeen self.now ts → result ≡ choose ts }
    {
        self.choice
    }
}

// The choice with one more target, that of the child at `place`.
fn choice_with(choice: Choice, place: usize, target: TargetResult) -> Choice
    ensures { result ≡ with_target choice place target }
{
    match target {
        TargetResult::Indeterminate => Choice::Bad,
        TargetResult::NoMatch => choice,
        TargetResult::Match => match choice {
            Choice::Nobody => Choice::Only(place),
            _ => Choice::Bad,
        },
    }
}

// Whether more targets can still matter.
fn progress_with(choice: Choice) -> Progress
    ensures { result ≡ progress_of choice }
{
    match choice {
        Choice::Bad => Progress::Stop,
        _ => Progress::Go,
    }
}

/// A law, with nothing to run: no result that follows changes a choice exactly where it is Bad. So
/// a caller may leave off at the first `Stop`, and not before.
pub fn bad_choice_is_final()
    ensures stays { BadStays }
    ensures only_bad { OnlyBadStays }
{}

/// A law, with nothing to run: results choose what their shortest prefix chooses that is Bad, if
/// there is one.
pub fn seen_targets_are_enough()
    ensures { SeenTargetsAreEnough }
{}
