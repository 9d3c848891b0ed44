//! The combining algorithms of OASIS XACML 3.0 core (appendix C): what a list of outcomes comes to,
//! where a caller may stop, and the URIs that name the algorithms. No call takes memory.
#![tactic(auto)]

mod chooser;
mod combiner;
mod identifiers;
mod outcome;

pub use chooser::{Choice, Chooser, TargetResult, bad_choice_is_final, seen_targets_are_enough};
pub use combiner::{Combiner, Progress, fixing_outcome_decides_alone, seen_prefix_is_enough};
pub use identifiers::identifiers_read_back;
pub use outcome::{IndKind, Outcome, PolicyAlg, RuleAlg, under_indeterminate_target};
