//! The decision point (OASIS XACML 3.0 core, section 7), which holds what is looked up and answers requests, and what
//! an evaluator gives to those above it.
#![tactic(auto)]

mod evaluates;
mod exchange;
mod pdp;
mod who;

pub use ent_request::{
    ACCESS_SUBJECT, ACTION, Answer, Asked, Assignment, Attribute, Category, Cause, Environment,
    Given, LookUps, NamePlace, Question, Questions, RESOURCE, ReadKey, Readers, Reads, Request,
    Status, What, WhyEntry, a_key_is_looked_up_for_one_question, document_leaves_others,
    environment_leaves_others, id_attribute, keys_name_the_listed, keys_order_by_kind,
    listed_requests_look_keys_up_by_their_names, root_leaves_others, same_answer_is_equal,
    same_key_is_equal, same_look_is_equal, values_leave_others,
};
pub use ent_walk::{
    Targeted, an_indeterminate_answer_has_its_cause, each_key_is_recorded_once,
    equal_findings_give_equal_answers, equal_look_ups_give_equal_answers,
    what_is_looked_up_is_recorded,
};
pub use evaluates::Evaluates;
pub use exchange::Exchange;
pub use pdp::{Evaluation, Explained, ListedEvaluation, Pdp};
pub use who::{Names, Who};
