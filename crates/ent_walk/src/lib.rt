//! The walk over a policy (OASIS XACML 3.0 core, section 7): what targets, expressions, rules, policies and sets come
//! to, and the laws of the answer.
#![tactic(auto)]

mod assignments;
mod choose;
mod evaluated;
mod expression;
mod gather;
mod holds;
mod law;
mod lender;
mod node;
mod only;
mod opened;
mod own_given;
mod reference;
mod rule;
mod set;
mod target;
mod told;
mod uncopied;
mod values;
mod walk;

pub use evaluated::{Evaluated, Truth};
pub use gather::{Gathering, no_children};
pub use law::{
    a_decided_answer_names_no_cause, an_indeterminate_answer_has_its_cause,
    each_key_is_recorded_once, equal_findings_give_equal_answers,
    equal_findings_give_equal_conditions, equal_findings_give_equal_targets,
    equal_look_ups_give_equal_answers, what_is_looked_up_is_recorded,
};
pub use node::under;
pub use own_given::indeterminate_of;
pub use target::Targeted;
pub use walk::Walk;
