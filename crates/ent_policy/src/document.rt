//! Policies, their rules and targets.

ghost use Rattle.std.specs.Prelude.{◌≡◌, IfOk};
ghost use Rattle.ent_policy.specs.Key.{key_of};

use crate::expression::{Expression, VariableDefinition};
use crate::given::GivenExpressions;
use crate::key::{DocKey, Kind, Reference};
use crate::version::Version;
use ent_combine::{PolicyAlg, RuleAlg};
use ent_functions::Function;
use ent_values::{DataType, Items, Text, Value};
use std::alloc::{AllocError, Global};
use std::marker::Model;

/// What a rule gives where it applies (section 5.22).
#[derive(Clone, Copy, PartialEq, Eq)]
pub enum Effect {
    Permit,
    Deny,
}

/// Names the values of an attribute (section 5.29).
#[derive(PartialEq, Eq, Drop)]
pub struct Designator {
    pub category: Text,
    pub attribute: Text,
    pub datatype: DataType,
    /// The issuer that the values must have; any, if it is `None`.
    pub issuer: Option<Text>,
    /// Whether the designator is Indeterminate where there is no value.
    pub must_be_present: bool,
}

/// A test of a literal against each value of an attribute (section 5.9).
#[derive(PartialEq, Eq, Drop)]
pub struct Match {
    pub function: Function,
    pub literal: Value,
    pub designator: Designator,
}

/// Matches all of which must be true (section 5.8).
#[derive(PartialEq, Eq, Drop)]
pub struct AllOf {
    pub matches: Items<Match>,
}

/// Alternatives of which one must match (section 5.7).
#[derive(PartialEq, Eq, Drop)]
pub struct AnyOf {
    pub all_of: Items<AllOf>,
}

/// The requests that a rule or a policy is meant for (section 5.6). An empty target matches every request.
#[derive(PartialEq, Eq, Drop)]
pub struct Target {
    pub any_of: Items<AnyOf>,
}

/// A rule (section 5.21).
#[derive(PartialEq, Eq, Drop)]
pub struct Rule {
    pub id: Text,
    pub effect: Effect,
    pub target: Target,
    /// What must be true for the rule to apply; an absent condition is true (section 5.26).
    pub condition: Option<Expression>,
    pub given: GivenExpressions,
}

/// A policy (section 5.14).
#[derive(PartialEq, Eq, Drop)]
pub struct Policy {
    pub id: Text,
    pub version: Version,
    pub algorithm: RuleAlg,
    pub target: Target,
    pub variables: Items<VariableDefinition>,
    pub rules: Items<Rule>,
    pub given: GivenExpressions,
}

/// A policy set (section 5.1).
#[cycle(tree)]
#[derive(PartialEq, Eq, Drop)]
pub struct PolicySet {
    pub id: Text,
    pub version: Version,
    pub algorithm: PolicyAlg,
    pub target: Target,
    pub children: Items<Child>,
    pub given: GivenExpressions,
}

/// A child of a policy set: a policy, a set, or a reference to a stored document.
#[cycle(tree)]
#[derive(PartialEq, Eq, Drop)]
pub enum Child {
    Policy(Policy),
    Set(PolicySet),
    Reference(Reference),
}

/// A policy or a policy set.
#[derive(PartialEq, Eq, Drop)]
pub enum Tree {
    Policy(Policy),
    Set(PolicySet),
}

/// A document that can be stored and evaluated. Only the checker makes one. `==` says whether two documents are equal:
/// it takes no memory, and looks at no more than the smaller of the two.
#[derive(Drop)]
pub struct Document {
    tree: Tree,
}

impl Model for Document {
    ghost use Rattle.std.specs.Coded.{codes};
    ghost use Rattle.ent_policy.specs.contracts.document.Tree as e;
    ghost use Rattle.ent_policy.specs.declared.document.Tree.{Tree};

    ghost Value = { Tree };

    ghost coded = { Prim.hlevel (codes, e.the_row.coded) };

    ghost use Rattle.ent_policy.specs.Check.{IsChecked};

    ghost view = { λ d. d.tree };

    ghost invariant = { λ d. IsChecked d.tree };
}

impl PartialEq for Document {
    ghost use Rattle.ent_policy.specs.contracts.document.TreePartialEq.TheImpl.Laws.{laws-law};

    ghost eq = { ⟦<Tree as PartialEq>⟧.eq };

    ghost laws = { laws-law };

    fn eq(&self, other: &Document) -> bool {
        self.tree == other.tree
    }
}

impl Eq for Document {
    ghost use Rattle.ent_policy.specs.contracts.document.TreeEq.TheImpl.Laws.{laws-law};

    ghost laws = { laws-law };
}

impl Document {
    ghost use Rattle.std.specs.Prelude.{None, true};
    ghost use Rattle.ent_policy.specs.Check.{IsChecked, tree_fault};
    ghost use Rattle.ent_policy.specs.Children.{as_child};
    ghost use Rattle.ent_policy.specs.Typing.{is_typed};
    ghost use Rattle.ent_policy.specs.Values.{HoldsWithin};

    pub(crate) fn new(tree: Tree) -> Document
        requires checked { IsChecked tree }
        ensures { result ≡ tree }
    {
        Document { tree }
    }

    /// The policy or the policy set that the document holds: what the checker passed, within the limits of names,
    /// lists, nodes and depth, each variable defined, and each expression of its type. Each integer in it is within
    /// signed 64 bits, each date is a day of the calendar, and each time is one of a day.
    ///
    /// Its contract is an equation.
    pub fn tree(&self) -> &Tree
        ensures same { result.now ≡ self.now }
        ensures checked { IsChecked result.now }
        ensures sound { tree_fault result.now ≡ None }
        ensures typed { is_typed (as_child result.now) ≡ true }
        ensures within { HoldsWithin result.now }
    {
        &self.tree
    }

    /// The name under which the document is stored.
    ///
    /// Its contract is an equation but for memory.
    pub fn key(&self, alloc: Global) -> Result<DocKey, AllocError>
        ensures { IfOk result (λ k. k ≡ key_of self.now) }
    {
        match &self.tree {
            Tree::Policy(policy) => Ok(DocKey {
                kind: Kind::Policy,
                id: policy.id.copy(alloc)?,
                version: policy.version.copy(),
            }),
            Tree::Set(set) => Ok(DocKey {
                kind: Kind::PolicySet,
                id: set.id.copy(alloc)?,
                version: set.version.copy(),
            }),
        }
    }
}
