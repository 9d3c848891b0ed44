//! What stands in a list of tests.

use ent_policy::{DocKey, Reference, Rule, Target, Tree, VariableDefinition};
use ent_values::{Items, Shared};

/// Where a rule stands: the definitions of its policy, and the path that leads to this.
#[derive(Drop)]
pub struct Within {
    pub definitions: Items<VariableDefinition>,
    pub path: Items<DocKey>,
}

/// What is tested.
#[derive(Drop)]
pub enum TestTask {
    /// The target of a policy or a set.
    Target(Target),
    /// The target of a rule.
    RuleTarget(Shared<Rule>),
    /// Its condition.
    Condition(Shared<Within>, Shared<Rule>),
    /// The rule where its condition is True, with what it gives itself.
    Decision(Shared<Within>, Shared<Rule>),
}

/// A reference, with a document that is equal to the one that it names, if there is one.
#[derive(Drop)]
pub struct NamedDocument {
    pub reference: Reference,
    pub copy: Option<Tree>,
}

/// What stands in an entry.
#[derive(Drop)]
pub enum Item {
    /// A reference that is followed.
    Named(Shared<NamedDocument>),
    /// That a policy or a set gives nothing itself.
    Given,
    /// A test.
    Test(TestTask),
}

/// An entry, and how many behind it are passed where what stands below it doesn't count.
#[derive(Drop)]
pub struct Entry {
    pub item: Item,
    pub skip: usize,
}
