//! The combining algorithms, beside a second reading of the appendix of the standard.

use ent_combine::{Choice, Chooser, Combiner, IndKind, Outcome, Progress, RuleAlg, TargetResult};
use std::process::Abort;

// What the outcomes come to, and how many were taken when `Stop` came.
fn combined(algorithm: RuleAlg, outcomes: &[Outcome]) -> (Outcome, Option<usize>) {
    let mut combiner = Combiner::new(algorithm);
    for i in 0..outcomes.len() {
        if combiner.take(outcomes[i]) == Progress::Stop {
            return (combiner.finish(), Some(i + 1));
        }
    }
    (combiner.finish(), None)
}

// Which child the results choose, and how many were taken when `Stop` came.
fn chosen(rt: &impl Abort, targets: &[TargetResult]) -> (Choice, Option<usize>) {
    assert!(rt; targets.len() <= Chooser::MOST);
    let mut chooser = Chooser::new();
    for i in 0..targets.len() {
        if chooser.take(targets[i]) == Progress::Stop {
            return (chooser.finish(), Some(i + 1));
        }
    }
    (chooser.finish(), None)
}

// The pseudo-code of the standard's appendix C, line by line, for a second reading of it. Each gives
// what the loop returns, with the number of children that it has evaluated, or what stands after it.

// C.2 and C.4: one decision overrides the other.
fn appendix_overrides(
    children: &[Outcome],
    winner: Outcome,
    of_winner: IndKind,
    loser: Outcome,
    of_loser: IndKind,
) -> (Outcome, Option<usize>) {
    let mut at_least_one_error_of_winner = false;
    let mut at_least_one_error_of_loser = false;
    let mut at_least_one_error_dp = false;
    let mut at_least_one_loser = false;
    for i in 0..children.len() {
        match children[i] {
            Outcome::Permit | Outcome::Deny => {
                if children[i] == winner {
                    return (winner, Some(i + 1));
                }
                at_least_one_loser = true;
            }
            Outcome::NotApplicable => {}
            Outcome::Ind(IndKind::DP) => at_least_one_error_dp = true,
            Outcome::Ind(kind) => {
                if kind == of_winner {
                    at_least_one_error_of_winner = true;
                } else {
                    at_least_one_error_of_loser = true;
                }
            }
        }
    }
    if at_least_one_error_dp {
        return (Outcome::Ind(IndKind::DP), None);
    }
    if at_least_one_error_of_winner && (at_least_one_error_of_loser || at_least_one_loser) {
        return (Outcome::Ind(IndKind::DP), None);
    }
    if at_least_one_error_of_winner {
        return (Outcome::Ind(of_winner), None);
    }
    if at_least_one_loser {
        return (loser, None);
    }
    if at_least_one_error_of_loser {
        return (Outcome::Ind(of_loser), None);
    }
    (Outcome::NotApplicable, None)
}

// C.6 and C.7: one decision, unless a child has the other.
fn appendix_unless(
    children: &[Outcome],
    decision: Outcome,
    other: Outcome,
) -> (Outcome, Option<usize>) {
    for i in 0..children.len() {
        if children[i] == other {
            return (other, Some(i + 1));
        }
    }
    (decision, None)
}

fn appendix_c8(children: &[Outcome]) -> (Outcome, Option<usize>) {
    for i in 0..children.len() {
        match children[i] {
            Outcome::Deny => return (Outcome::Deny, Some(i + 1)),
            Outcome::Permit => return (Outcome::Permit, Some(i + 1)),
            Outcome::NotApplicable => {}
            Outcome::Ind(kind) => return (Outcome::Ind(kind), Some(i + 1)),
        }
    }
    (Outcome::NotApplicable, None)
}

fn appendix_c9(policies: &[TargetResult]) -> (Choice, Option<usize>) {
    let mut at_least_one = false;
    let mut selected_policy = 0;
    for i in 0..policies.len() {
        match policies[i] {
            TargetResult::Indeterminate => return (Choice::Bad, Some(i + 1)),
            TargetResult::Match => {
                if at_least_one {
                    return (Choice::Bad, Some(i + 1));
                }
                at_least_one = true;
                selected_policy = i;
            }
            TargetResult::NoMatch => {}
        }
    }
    if at_least_one {
        (Choice::Only(selected_policy), None)
    } else {
        (Choice::Nobody, None)
    }
}

/// What the appendix says of some outcomes.
fn appendix(algorithm: RuleAlg, outcomes: &[Outcome]) -> (Outcome, Option<usize>) {
    let deny = Outcome::Deny;
    let permit = Outcome::Permit;
    match algorithm {
        RuleAlg::DenyOverrides | RuleAlg::OrderedDenyOverrides => {
            appendix_overrides(outcomes, deny, IndKind::D, permit, IndKind::P)
        }
        RuleAlg::PermitOverrides | RuleAlg::OrderedPermitOverrides => {
            appendix_overrides(outcomes, permit, IndKind::P, deny, IndKind::D)
        }
        RuleAlg::DenyUnlessPermit => appendix_unless(outcomes, deny, permit),
        RuleAlg::PermitUnlessDeny => appendix_unless(outcomes, permit, deny),
        RuleAlg::FirstApplicable => appendix_c8(outcomes),
    }
}

const ALGORITHMS: &[RuleAlg] = &[
    RuleAlg::DenyOverrides,
    RuleAlg::OrderedDenyOverrides,
    RuleAlg::PermitOverrides,
    RuleAlg::OrderedPermitOverrides,
    RuleAlg::DenyUnlessPermit,
    RuleAlg::PermitUnlessDeny,
    RuleAlg::FirstApplicable,
];

/// Whether each algorithm makes of some outcomes what the appendix says.
fn agree(outcomes: &[Outcome]) -> bool {
    for &algorithm in ALGORITHMS {
        if combined(algorithm, outcomes) != appendix(algorithm, outcomes) {
            return false;
        }
    }
    true
}

const OUTCOMES: &[Outcome] = &[
    Outcome::Permit,
    Outcome::Deny,
    Outcome::NotApplicable,
    Outcome::Ind(IndKind::P),
    Outcome::Ind(IndKind::D),
    Outcome::Ind(IndKind::DP),
];

/// Whether they do so of two outcomes, and of any one more.
fn agree_from(a: Outcome, b: Outcome) -> bool {
    for &c in OUTCOMES {
        if !agree(&[a, b, c]) {
            return false;
        }
    }
    agree(&[a, b])
}

#[test]
fn every_list_of_three_outcomes(rt: HostRuntime) {
    assert!(rt; agree(&[]));
    for &a in OUTCOMES {
        assert!(rt; agree(&[a]), "{a:?}");
        for &b in OUTCOMES {
            assert!(rt; agree_from(a, b), "{a:?} {b:?}");
        }
    }
}

/// Whether the targets choose what the appendix says.
fn choose(rt: &impl Abort, targets: &[TargetResult]) -> bool {
    chosen(rt, targets) == appendix_c9(targets)
}

const TARGETS: &[TargetResult] = &[
    TargetResult::NoMatch,
    TargetResult::Match,
    TargetResult::Indeterminate,
];

/// Whether two targets do so, and with any one more.
fn choose_from(rt: &impl Abort, a: TargetResult, b: TargetResult) -> bool {
    for &c in TARGETS {
        if !choose(rt, &[a, b, c]) {
            return false;
        }
    }
    choose(rt, &[a, b])
}

#[test]
fn every_list_of_three_targets(rt: HostRuntime) {
    assert!(rt; choose(&rt, &[]));
    for &a in TARGETS {
        assert!(rt; choose(&rt, &[a]), "{a:?}");
        for &b in TARGETS {
            assert!(rt; choose_from(&rt, a, b), "{a:?} {b:?}");
        }
    }
}
