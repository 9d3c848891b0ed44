//! What stands in policies and sets: how many nodes and references, whether an expression is too deep, and whether each
//! has its type.

ghost use Rattle.std.specs.Prelude.{◌≡◌, IfOk, map, min};
ghost use Rattle.ent_policy.specs.Children.{as_child};
ghost use Rattle.ent_policy.specs.declared.document.Child.TheVariants.{Set};
ghost use Rattle.ent_policy.specs.Depths.{depth, greatest};
ghost use Rattle.ent_policy.specs.proofs_only.Measure.{IsExtentOf, IsExtentOfAll, IsExtentOfPolicy, found, together};
ghost use Rattle.ent_policy.specs.proofs_only.Measure.{whole};
ghost use Rattle.ent_policy.specs.proofs_only.Measure.{condition_extent, given_extent, held_extent, target_extent};

use crate::document::{AllOf, AnyOf, Child, Match, Policy, PolicySet, Rule, Target, Tree};
use crate::expression::{Expression, VariableDefinition};
use crate::given::{AssignmentExpression, GivenExpression, GivenExpressions};
use crate::measure::{Measured, TOO_DEEP, added, deeper, held, is_boolean, measure, table};
use crate::variables::uses_none;
use ent_functions::ArgType;
use std::alloc::{AllocError, Global};
use std::collections::BTreeMap;

/// What stands in a part of a document: its nodes up to `TOO_MANY`, its references up to `TOO_LINKED`, whether an
/// expression is too deep, and whether each expression has its type.
#[derive(Clone, Copy, Drop)]
pub(crate) struct Extent {
    pub(crate) nodes: usize,
    pub(crate) references: usize,
    pub(crate) is_deep: bool,
    pub(crate) is_typed: bool,
}

/// References are counted up to this number, which is one more than a document may have.
pub(crate) const TOO_LINKED: usize = 33;

/// Nothing.
const NOTHING: Extent = Extent {
    nodes: 0,
    references: 0,
    is_deep: false,
    is_typed: true,
};

impl Extent {
    /// Two parts together.
    fn and(self, other: Extent) -> Extent
        ensures { result ≡ together self other }
    {
        Extent {
            nodes: added(self.nodes, other.nodes),
            references: self
                .references
                .saturating_add(other.references)
                .min(TOO_LINKED),
            is_deep: self.is_deep || other.is_deep,
            is_typed: self.is_typed && other.is_typed,
        }
    }
}

/// A part of a target.
trait Extended {
    ghost use Rattle.std.specs.Prelude.{◌≡◌};
    ghost use Rattle.ent_policy.specs.declared.extent.Extent.{Extent};

    ghost of: { Self → Extent };

    /// What stands in the part.
    fn extent(&self) -> Extent
        ensures { result ≡ of self.now };
}

/// What stands in some parts.
fn extent_of_all<E: Extended>(parts: &[E]) -> Extent
    ensures { result ≡ whole E.of parts.now }
{
    let mut all = NOTHING;
    for part in parts {
        all = all.and(part.extent());
    }
    all
}

impl Extended for Match {
    ghost use Rattle.ent_policy.specs.proofs_only.Measure.{match_extent};

    ghost of = { match_extent };

    #[tactic(auto, unfolding(crate::specs::Typing::match_is_typed))]
    fn extent(&self) -> Extent {
        let given = [
            ArgType::One(self.literal.datatype()),
            ArgType::One(self.designator.datatype),
        ];
        Extent {
            nodes: 2,
            references: 0,
            is_deep: false,
            is_typed: is_boolean(self.function.result_type(given.as_slice())),
        }
    }
}

impl Extended for AllOf {
    ghost use Rattle.ent_policy.specs.proofs_only.Measure.{all_of_extent};

    ghost of = { all_of_extent };

    fn extent(&self) -> Extent {
        extent_of_all(self.matches.as_slice())
    }
}

impl Extended for AnyOf {
    ghost use Rattle.ent_policy.specs.proofs_only.Measure.{any_of_extent};

    ghost of = { any_of_extent };

    fn extent(&self) -> Extent {
        extent_of_all(self.all_of.as_slice())
    }
}

#[tactic(auto, using(crate::proofs::Extents::target_whole))]
fn target_extent(target: &Target) -> Extent
    ensures { result ≡ target_extent target.now }
{
    extent_of_all(target.any_of.as_slice())
}

/// A part whose expressions may use variables.
trait Measurable {
    ghost use Rattle.std.specs.Prelude.{◌≡◌, ℕ, List, IfOk};
    ghost use Rattle.ent_policy.specs.declared.extent.Extent.{Extent};
    ghost use Rattle.ent_policy.specs.declared.measure.Measured.{Measured};
    ghost use Rattle.ent_policy.specs.proofs_only.Measure.{found};

    ghost of: { (List ℕ → Measured) → Self → Extent };

    /// What stands in the part, where the table has what was measured of variables.
    fn extent_by(
        &self,
        alloc: Global,
        table: &BTreeMap<&str, Measured>,
    ) -> Result<Extent, AllocError>
        ensures { IfOk result (λ e. e ≡ of (found table.now) self.now) };
}

/// What stands in some parts.
fn extent_of_each<M: Measurable>(
    alloc: Global,
    table: &BTreeMap<&str, Measured>,
    parts: &[M],
) -> Result<Extent, AllocError>
    ensures { IfOk result (λ e. e ≡ whole (M.of (found table.now)) parts.now) }
{
    let mut all = NOTHING;
    for part in parts {
        all = all.and(part.extent_by(alloc, table)?);
    }
    Ok(all)
}

/// What stands in an expression that gives a value or a bag.
fn held_extent(
    alloc: Global,
    table: &BTreeMap<&str, Measured>,
    expression: &Expression,
) -> Result<Extent, AllocError>
    ensures { IfOk result (λ e. e ≡ held_extent (found table.now) expression.now) }
{
    let one = measure(alloc, table, expression)?;
    Ok(Extent {
        nodes: one.nodes,
        references: 0,
        is_deep: one.depth == TOO_DEEP,
        is_typed: held(one.datatype).is_some(),
    })
}

fn condition_extent(
    alloc: Global,
    table: &BTreeMap<&str, Measured>,
    condition: &Option<Expression>,
) -> Result<Extent, AllocError>
    ensures { IfOk result (λ e. e ≡ condition_extent (found table.now) condition.now) }
{
    match condition {
        None => Ok(NOTHING),
        Some(expression) => {
            let one = measure(alloc, table, expression)?;
            Ok(Extent {
                nodes: one.nodes,
                references: 0,
                is_deep: one.depth == TOO_DEEP,
                is_typed: is_boolean(one.datatype),
            })
        }
    }
}

fn given_extent(
    alloc: Global,
    table: &BTreeMap<&str, Measured>,
    given: &GivenExpressions,
) -> Result<Extent, AllocError>
    ensures { IfOk result (λ e. e ≡ given_extent (found table.now) given.now) }
{
    let obligations = extent_of_each(alloc, table, given.obligations.as_slice())?;
    let advice = extent_of_each(alloc, table, given.advice.as_slice())?;
    Ok(obligations.and(advice))
}

impl Measurable for VariableDefinition {
    ghost use Rattle.ent_policy.specs.proofs_only.Measure.{definition_extent};

    ghost of = { definition_extent };

    fn extent_by(
        &self,
        alloc: Global,
        table: &BTreeMap<&str, Measured>,
    ) -> Result<Extent, AllocError> {
        held_extent(alloc, table, &self.expression)
    }
}

impl Measurable for AssignmentExpression {
    ghost use Rattle.ent_policy.specs.proofs_only.Measure.{assignment_extent};

    ghost of = { assignment_extent };

    fn extent_by(
        &self,
        alloc: Global,
        table: &BTreeMap<&str, Measured>,
    ) -> Result<Extent, AllocError> {
        held_extent(alloc, table, &self.expression)
    }
}

impl Measurable for GivenExpression {
    ghost use Rattle.ent_policy.specs.proofs_only.Measure.{given_expression_extent};

    ghost of = { given_expression_extent };

    fn extent_by(
        &self,
        alloc: Global,
        table: &BTreeMap<&str, Measured>,
    ) -> Result<Extent, AllocError> {
        extent_of_each(alloc, table, self.assignments.as_slice())
    }
}

impl Measurable for Rule {
    ghost use Rattle.ent_policy.specs.proofs_only.Measure.{rule_extent};

    ghost of = { rule_extent };

    fn extent_by(
        &self,
        alloc: Global,
        table: &BTreeMap<&str, Measured>,
    ) -> Result<Extent, AllocError> {
        let condition = condition_extent(alloc, table, &self.condition)?;
        let given = given_extent(alloc, table, &self.given)?;
        Ok(target_extent(&self.target).and(condition).and(given))
    }
}

/// What stands in a policy; or `None`, if a variable of it is defined twice, not at all, or through itself.
fn policy_extent(alloc: Global, policy: &Policy) -> Result<Option<Extent>, AllocError>
    ensures { IfOk result (λ found. IsExtentOfPolicy policy.now found) }
{
    let Some(table) = table(alloc, policy)? else {
        return Ok(None);
    };
    let definitions = extent_of_each(alloc, &table, policy.variables.as_slice())?;
    let rules = extent_of_each(alloc, &table, policy.rules.as_slice())?;
    let given = given_extent(alloc, &table, &policy.given)?;
    let target = target_extent(&policy.target);
    Ok(Some(target.and(definitions).and(rules).and(given)))
}

/// What stands in a document; or `None`, if a variable in it is defined twice, not at all, or through itself.
pub(crate) fn extent_of(alloc: Global, tree: &Tree) -> Result<Option<Extent>, AllocError>
    ensures { IfOk result (λ found. IsExtentOf (as_child tree.now) found) }
{
    match tree {
        Tree::Policy(policy) => policy_extent(alloc, policy),
        Tree::Set(set) => set_extent(alloc, set),
    }
}

/// What stands in a child of a set.
#[cycle(child)]
fn child_extent(alloc: Global, child: &Child) -> Result<Option<Extent>, AllocError>
    ensures { IfOk result (λ found. IsExtentOf child.now found) }
{
    match child {
        Child::Policy(policy) => policy_extent(alloc, policy),
        Child::Set(set) => set_extent(alloc, set),
        Child::Reference(_) => {
            let mut one = NOTHING;
            one.references = 1;
            Ok(Some(one))
        }
    }
}

/// What stands in a set.
#[cycle(child)]
#[tactic(auto, using(crate::proofs::Extents::bad_set, crate::proofs::Extents::set_extent))]
fn set_extent(alloc: Global, set: &PolicySet) -> Result<Option<Extent>, AllocError>
    ensures { IfOk result (λ found. IsExtentOf (Set set.now) found) }
{
    let Some(children) = extent_of_children(alloc, set.children.as_slice())? else {
        return Ok(None);
    };
    if !uses_none(alloc, &set.given) {
        return Ok(None);
    }
    let given = given_extent(alloc, &BTreeMap::new(alloc), &set.given)?;
    let target = target_extent(&set.target);
    Ok(Some(target.and(children).and(given)))
}

/// What stands in the children of a set.
#[cycle(child)]
fn extent_of_children(alloc: Global, children: &[Child]) -> Result<Option<Extent>, AllocError>
    ensures { IfOk result (λ found. IsExtentOfAll children.now found) }
{
    let mut all = NOTHING;
    for child in children {
        match child_extent(alloc, child)? {
            None => return Ok(None),
            Some(one) => all = all.and(one),
        }
    }
    Ok(Some(all))
}

/// How deep policy sets stand in each other in a document, up to `TOO_DEEP`.
pub(crate) fn depth(tree: &Tree) -> usize
    ensures { result ≡ min 17 (depth (as_child tree.now)) }
{
    match tree {
        Tree::Policy(_) => 1,
        Tree::Set(set) => set_depth(set),
    }
}

#[cycle(depth)]
fn child_depth(child: &Child) -> usize
    ensures { result ≡ min 17 (depth child.now) }
{
    match child {
        Child::Policy(_) | Child::Reference(_) => 1,
        Child::Set(set) => set_depth(set),
    }
}

#[cycle(depth)]
#[tactic(auto, using(crate::proofs::Extents::depth_of_set))]
fn set_depth(set: &PolicySet) -> usize
    ensures { result ≡ min 17 (depth (Set set.now)) }
{
    deeper(greatest_depth(set.children.as_slice()))
}

/// The depth of the deepest of some children, up to `TOO_DEEP`.
#[cycle(depth)]
fn greatest_depth(children: &[Child]) -> usize
    ensures { result ≡ min 17 (greatest (map depth children.now)) }
{
    let mut most = 0;
    for child in children {
        most = child_depth(child).max(most);
    }
    most
}
