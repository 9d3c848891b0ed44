//! Documents as they are read, before they are checked.

ghost use Rattle.std.specs.Prelude.{◌≡◌, []};

use crate::document::Effect;
use crate::key::Kind;
use ent_values::{Items, Text};
use std::alloc::Global;

/// A literal as read: a JSON text, boolean or number.
#[derive(Drop)]
pub enum RawLiteral {
    Text(Text),
    Boolean(bool),
    Integer(i64),
}

/// A value as read: its type by name, if it is given, and its literal.
#[derive(Drop)]
pub struct RawValue {
    pub datatype: Option<Text>,
    pub literal: RawLiteral,
}

/// Names the values of an attribute, as read: its type by name.
#[derive(Drop)]
pub struct RawDesignator {
    pub category: Text,
    pub attribute: Text,
    pub datatype: Text,
    pub issuer: Option<Text>,
    pub must_be_present: bool,
}

/// An expression as read: functions by their identifiers.
#[derive(Drop)]
pub enum RawExpression {
    Value(RawValue),
    Designator(RawDesignator),
    Variable(Text),
    Apply(Text, Items<RawExpression>),
    Function(Text),
}

/// A variable as read.
#[derive(Drop)]
pub struct RawVariableDefinition {
    pub id: Text,
    pub expression: RawExpression,
}

/// A match as read: the function by its identifier.
#[derive(Drop)]
pub struct RawMatch {
    pub function: Text,
    pub literal: RawValue,
    pub designator: RawDesignator,
}

/// Matches all of which must be true, as read.
#[derive(Drop)]
pub struct RawAllOf {
    pub matches: Items<RawMatch>,
}

/// Alternatives of which one must match, as read.
#[derive(Drop)]
pub struct RawAnyOf {
    pub all_of: Items<RawAllOf>,
}

/// A target as read.
#[derive(Drop)]
pub struct RawTarget {
    pub any_of: Items<RawAnyOf>,
}

/// An assignment as read.
#[derive(Drop)]
pub struct RawAssignment {
    pub attribute: Text,
    pub category: Option<Text>,
    pub issuer: Option<Text>,
    pub expression: RawExpression,
}

/// An obligation or an advice as read.
#[derive(Drop)]
pub struct RawGivenExpression {
    pub id: Text,
    pub effect: Effect,
    pub assignments: Items<RawAssignment>,
}

/// The obligations and the advice of a rule, a policy or a policy set, as read.
#[derive(Drop)]
pub struct RawGivenExpressions {
    pub obligations: Items<RawGivenExpression>,
    pub advice: Items<RawGivenExpression>,
}

impl RawGivenExpressions {
    /// No obligation and no advice, for which nothing is allocated.
    ///
    /// Its contract is an equation.
    pub fn none(alloc: Global) -> RawGivenExpressions
        ensures obligations { result.obligations ≡ [] }
        ensures advice { result.advice ≡ [] }
    {
        RawGivenExpressions {
            obligations: Items::new(alloc),
            advice: Items::new(alloc),
        }
    }
}

/// A rule as read.
#[derive(Drop)]
pub struct RawRule {
    pub id: Text,
    pub effect: Effect,
    pub target: RawTarget,
    pub condition: Option<RawExpression>,
    pub given: RawGivenExpressions,
}

/// A policy as read: version and algorithm by their texts.
#[derive(Drop)]
pub struct RawPolicy {
    pub id: Text,
    pub version: Text,
    pub algorithm: Text,
    pub target: RawTarget,
    pub variables: Items<RawVariableDefinition>,
    pub rules: Items<RawRule>,
    pub given: RawGivenExpressions,
}

/// A reference as read: its id and its version patterns by their texts.
#[derive(Drop)]
pub struct RawReference {
    pub kind: Kind,
    pub id: Text,
    pub version: Option<Text>,
    pub earliest: Option<Text>,
    pub latest: Option<Text>,
}

/// A policy set as read: version and algorithm by their texts.
#[cycle(raw)]
#[derive(Drop)]
pub struct RawPolicySet {
    pub id: Text,
    pub version: Text,
    pub algorithm: Text,
    pub target: RawTarget,
    pub children: Items<RawChild>,
    pub given: RawGivenExpressions,
}

/// A child of a policy set, as read.
#[cycle(raw)]
#[derive(Drop)]
pub enum RawChild {
    Policy(RawPolicy),
    Set(RawPolicySet),
    Reference(RawReference),
}

/// A document as read. Its form is right, but nothing else is known of it.
#[derive(Drop)]
pub enum RawDocument {
    Policy(RawPolicy),
    Set(RawPolicySet),
}
