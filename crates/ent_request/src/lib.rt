//! What is asked and answered: requests, answers with their causes, the questions of an evaluation and the look-ups
//! that these rest on, and where the values of a designator come from (OASIS XACML 3.0 core, section 7.3.5).
#![tactic(auto)]

mod answer;
mod cause;
mod change;
mod environment;
mod given;
mod hashed;
mod key;
mod lent_bag;
mod look_ups;
mod own;
mod own_bag;
mod question;
mod questions;
pub mod readers;
mod reads;
mod request;
mod same;
mod sources;
mod uris;

pub use answer::{Answer, Status, WhyEntry, copied_text};
pub use cause::{Cause, Reason, What};
pub use change::{
    document_leaves_others, environment_leaves_others, root_leaves_others, values_leave_others,
};
pub use environment::Environment;
pub use given::{Assignment, Given};
pub use key::ReadKey;
pub use lent_bag::LentBag;
pub use look_ups::LookUps;
pub use own::{Sought, same_issuer};
pub use own_bag::{is_among, lacks, only_own};
pub use question::{Asked, Question, same_reference};
pub use questions::Questions;
pub use readers::{
    NamePlace, Readers, a_key_is_looked_up_for_one_question, keys_name_the_listed,
    listed_requests_look_keys_up_by_their_names,
};
pub use reads::Reads;
pub use request::{Attribute, Category, Request};
pub use same::{keys_order_by_kind, same_answer_is_equal, same_key_is_equal, same_look_is_equal};
pub use sources::{asks_for, designated, entity_of, id_attribute};
pub use uris::{ACCESS_SUBJECT, ACTION, CURRENT_DATE, CURRENT_DATE_TIME, CURRENT_TIME, RESOURCE};
