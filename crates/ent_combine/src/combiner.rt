ghost use Rattle.std.specs.Prelude.{◌≡◌, List, [], ◌∷◌, ◌++◌};
ghost use Rattle.ent_combine.specs.Combine.{combine, deny_overrides, permit_overrides, progress_at, HasTaken};
ghost use Rattle.ent_combine.specs.Seen.{SeenIsEnough, FixesAlone};
ghost use Rattle.ent_combine.specs.declared.outcome.Outcome.{Outcome};

use crate::outcome::{IndKind, Outcome, RuleAlg};
use std::marker::Model;

/// Whether what follows can still matter to the result.
#[derive(Clone, Copy, Debug, PartialEq, Eq)]
pub enum Progress {
    /// It can.
    Go,
    /// It can't.
    Stop,
}

/// Takes outcomes one at a time, in order, and keeps what they come to.
///
/// After `Stop` a caller need take nothing more: [`seen_prefix_is_enough`].
#[derive(Drop)]
pub struct Combiner {
    algorithm: RuleAlg,
    combined: Outcome,
}

impl Model for Combiner {
    ghost use Rattle.ent_combine.specs.Taken.{Taken};

    ghost Value = { Taken };

    ghost view = { λ c. record { algorithm = c.algorithm; combined = c.combined } };
}

impl Combiner {
    /// A combiner that has taken nothing.
    ///
    /// Its contract is an equation.
    pub fn new(algorithm: RuleAlg) -> Combiner
        ensures algorithm { result.algorithm ≡ algorithm }
        ensures nothing { HasTaken result [] }
    {
        let combined = match algorithm {
            RuleAlg::DenyUnlessPermit => Outcome::Deny,
            RuleAlg::PermitUnlessDeny => Outcome::Permit,
            _ => Outcome::NotApplicable,
        };
        Combiner {
            algorithm,
            combined,
        }
    }

    /// Takes one more outcome. `Stop` says that it fixes the result, whatever follows.
    ///
    /// Its contract leaves open: what becomes of a value that stands for no list of outcomes, which no caller comes to.
    pub fn take(&mut self, outcome: Outcome) -> Progress
        ensures algorithm { self.new.algorithm ≡ self.old.algorithm }
        ensures taken { (xs : List Outcome) → HasTaken self.old xs → HasTaken self.new (xs ++ outcome ∷ []) }
        ensures progress { result ≡ progress_at self.old.algorithm outcome }
    {
        self.combined = joined(self.algorithm, self.combined, outcome);
        progress_after(self.algorithm, outcome)
    }

    /// What the outcomes taken come to (appendix C.2 to C.8).
    ///
    /// Its contract leaves open: what is told of a value that stands for no list of outcomes, which no caller comes to.
    pub fn finish(&self) -> Outcome
        ensures { (xs : List Outcome) → HasTaken self.now xs → result ≡ combine self.now.algorithm xs }
    {
        self.combined
    }
}

// What two values come to, each of an outcome or of several.
fn joined(algorithm: RuleAlg, so_far: Outcome, next: Outcome) -> Outcome
    ensures { result ≡ combine algorithm (so_far ∷ next ∷ []) }
{
    match algorithm {
        RuleAlg::DenyOverrides | RuleAlg::OrderedDenyOverrides => deny_over(so_far, next),
        RuleAlg::PermitOverrides | RuleAlg::OrderedPermitOverrides => permit_over(so_far, next),
        RuleAlg::DenyUnlessPermit => match (so_far, next) {
            (Outcome::Permit, _) | (_, Outcome::Permit) => Outcome::Permit,
            _ => Outcome::Deny,
        },
        RuleAlg::PermitUnlessDeny => match (so_far, next) {
            (Outcome::Deny, _) | (_, Outcome::Deny) => Outcome::Deny,
            _ => Outcome::Permit,
        },
        RuleAlg::FirstApplicable => match so_far {
            Outcome::NotApplicable => next,
            _ => so_far,
        },
    }
}

// The arms stand in the order of appendix C.2, so that each may rely on those before it.
fn deny_over(a: Outcome, b: Outcome) -> Outcome
    ensures { result ≡ deny_overrides (a ∷ b ∷ []) }
{
    use IndKind::{D, DP, P};
    use Outcome::{Deny, Ind, NotApplicable, Permit};

    match (a, b) {
        (Deny, _) | (_, Deny) => Deny,
        (Ind(DP), _) | (_, Ind(DP)) => Ind(DP),
        (Ind(D), Permit | Ind(P)) | (Permit | Ind(P), Ind(D)) => Ind(DP),
        (Ind(D), _) | (_, Ind(D)) => Ind(D),
        (Permit, _) | (_, Permit) => Permit,
        (Ind(P), _) | (_, Ind(P)) => Ind(P),
        (NotApplicable, NotApplicable) => NotApplicable,
    }
}

// `deny_over` with the two decisions exchanged.
fn permit_over(a: Outcome, b: Outcome) -> Outcome
    ensures { result ≡ permit_overrides (a ∷ b ∷ []) }
{
    use IndKind::{D, DP, P};
    use Outcome::{Deny, Ind, NotApplicable, Permit};

    match (a, b) {
        (Permit, _) | (_, Permit) => Permit,
        (Ind(DP), _) | (_, Ind(DP)) => Ind(DP),
        (Ind(P), Deny | Ind(D)) | (Deny | Ind(D), Ind(P)) => Ind(DP),
        (Ind(P), _) | (_, Ind(P)) => Ind(P),
        (Deny, _) | (_, Deny) => Deny,
        (Ind(D), _) | (_, Ind(D)) => Ind(D),
        (NotApplicable, NotApplicable) => NotApplicable,
    }
}

// Whether an outcome leaves anything to what follows.
fn progress_after(algorithm: RuleAlg, outcome: Outcome) -> Progress
    ensures { result ≡ progress_at algorithm outcome }
{
    let fixed = match algorithm {
        RuleAlg::DenyOverrides | RuleAlg::OrderedDenyOverrides | RuleAlg::PermitUnlessDeny => {
            matches!(outcome, Outcome::Deny)
        }
        RuleAlg::PermitOverrides | RuleAlg::OrderedPermitOverrides | RuleAlg::DenyUnlessPermit => {
            matches!(outcome, Outcome::Permit)
        }
        RuleAlg::FirstApplicable => !matches!(outcome, Outcome::NotApplicable),
    };
    if fixed { Progress::Stop } else { Progress::Go }
}

/// A law, with nothing to run: a list comes to what its shortest prefix comes to whose last
/// outcome fixes the result. So a caller may leave off at the first `Stop`.
pub fn seen_prefix_is_enough()
    ensures { SeenIsEnough }
{}

/// A law, with nothing to run: [`Combiner::take`] says `Stop` exactly at an outcome whose value is
/// that of the whole list, whatever stands before and after it. For first-applicable all before it
/// are NotApplicable.
pub fn fixing_outcome_decides_alone()
    ensures { FixesAlone }
{}
