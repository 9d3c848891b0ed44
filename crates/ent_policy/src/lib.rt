//! Policies as they are stored and evaluated, their names and versions, and the checker that makes them.
#![tactic(auto)]

mod checker;
mod document;
mod expression;
mod extent;
mod fault;
mod first;
mod given;
mod key;
mod law;
mod limits;
mod literals;
mod measure;
mod name;
mod pattern;
mod raw;
mod read;
mod reading;
mod reading_given;
mod reading_reference;
mod variables;
mod version;

pub use checker::{check, check_reference};
pub use document::{
    AllOf, AnyOf, Child, Designator, Document, Effect, Match, Policy, PolicySet, Rule, Target, Tree,
};
pub use expression::{Expression, VariableDefinition};
pub use fault::{CheckFault, DocFault};
pub use given::{AssignmentExpression, GivenExpression, GivenExpressions};
pub use key::{DocKey, Kind, Reference};
pub use law::{
    more_references_change_nothing, order_is_by_kind_id_and_version, same_is_equal,
    stand_ins_have_no_type,
};
pub use limits::is_bad_name;
pub use literals::{boolean_as, integer_as};
pub use name::Name;
pub use pattern::{
    PatternPart, VersionConstraints, VersionMatch, pattern_text_reads_back, what_a_pattern_accepts,
};
pub use raw::{
    RawAllOf, RawAnyOf, RawAssignment, RawChild, RawDesignator, RawDocument, RawExpression,
    RawGivenExpression, RawGivenExpressions, RawLiteral, RawMatch, RawPolicy, RawPolicySet,
    RawReference, RawRule, RawTarget, RawValue, RawVariableDefinition,
};
pub use version::{Version, text_reads_back};
