//! The limits of a document's parts: lengths of names and lists, and names that stand twice.

ghost use Rattle.std.specs.Prelude.{◌≡◌, IfOk, length, map};
ghost use Rattle.ent_policy.specs.Children.{as_child};
ghost use Rattle.ent_policy.specs.First.{first_of};
ghost use Rattle.ent_policy.specs.Names.{is_bad_name};
ghost use Rattle.ent_policy.specs.Limits.{designator_fault, expression_fault, given_fault, policy_fault, target_fault};
ghost use Rattle.ent_policy.specs.Limits.{filled_fault, has_double, length_fault, limit_fault, maybe_fault, name_fault};
ghost use Rattle.ent_policy.specs.declared.document.Child.TheVariants.{Set};

use crate::document::{
    AllOf, AnyOf, Child, Designator, Match, Policy, PolicySet, Rule, Target, Tree,
};
use crate::expression::{Expression, VariableDefinition};
use crate::fault::DocFault;
use crate::first::{earlier, first_of, if_so};
use crate::given::{AssignmentExpression, GivenExpression, GivenExpressions};
use ent_values::Text;
use std::alloc::{AllocError, Global};
use std::collections::BTreeSet;

/// The most members that a list may have.
const LONGEST: usize = 256;

/// A part of a document that has limits.
trait Limited {
    ghost use Rattle.std.specs.Prelude.{◌≡◌, Option};
    ghost use Rattle.ent_policy.specs.declared.fault.DocFault.{DocFault};

    ghost exceeds: { Self → Option DocFault };

    /// The first limit that is exceeded in the part.
    fn fault(&self) -> Option<DocFault>
        ensures { result ≡ exceeds self.now };
}

/// The first limit that is exceeded in one of the parts.
fn fault_in<L: Limited>(parts: &[L]) -> Option<DocFault>
    ensures { result ≡ first_of (map L.exceeds parts.now) }
{
    let mut first = None;
    for part in parts {
        first = earlier(first, part.fault());
    }
    first
}

/// Whether an identifier has no byte or more than 256.
///
/// Its contract is an equation.
pub fn is_bad_name(name: &str) -> bool
    ensures { result ≡ is_bad_name name.now }
{
    name.len() == 0 || name.len() > 256
}

fn name_fault(name: &str) -> Option<DocFault>
    ensures { result ≡ name_fault name.now }
{
    if_so(is_bad_name(name), DocFault::Identifier)
}

fn maybe_name_fault(name: &Option<Text>) -> Option<DocFault>
    ensures { result ≡ maybe_fault name_fault name.now }
{
    match name {
        None => None,
        Some(name) => name_fault(name.as_str()),
    }
}

fn length_fault<T>(parts: &[T]) -> Option<DocFault>
    ensures { result ≡ length_fault parts.now }
{
    if_so(parts.len() > LONGEST, DocFault::Size)
}

fn filled_fault<T>(parts: &[T]) -> Option<DocFault>
    ensures { result ≡ filled_fault parts.now }
{
    if parts.len() == 0 {
        return Some(DocFault::Form);
    }
    length_fault(parts)
}

#[tactic(auto, unfolding(crate::specs::Limits::designator_fault))]
fn designator_fault(designator: &Designator) -> Option<DocFault>
    ensures { result ≡ designator_fault designator.now }
{
    first_of(&[
        name_fault(designator.category.as_str()),
        name_fault(designator.attribute.as_str()),
        maybe_name_fault(&designator.issuer),
    ])
}

#[cycle(expression)]
#[tactic(auto, using(crate::proofs::Exceeded::limits_of_apply))]
fn expression_fault(expression: &Expression) -> Option<DocFault>
    ensures { result ≡ expression_fault expression.now }
{
    match expression {
        Expression::Value(_) | Expression::Function(_) => None,
        Expression::Designator(designator) => designator_fault(designator),
        Expression::Variable(id) => name_fault(id.as_str()),
        Expression::Apply(_, arguments) => {
            let arguments = arguments.as_slice();
            earlier(length_fault(arguments), argument_fault(arguments))
        }
    }
}

#[cycle(expression)]
fn argument_fault(arguments: &[Expression]) -> Option<DocFault>
    ensures { result ≡ first_of (map expression_fault arguments.now) }
{
    let mut first = None;
    for argument in arguments {
        first = earlier(first, expression_fault(argument));
    }
    first
}

impl Limited for Match {
    ghost use Rattle.ent_policy.specs.Limits.{match_fault};

    ghost exceeds = { match_fault };

    #[tactic(auto, unfolding(crate::specs::Limits::match_fault))]
    fn fault(&self) -> Option<DocFault> {
        designator_fault(&self.designator)
    }
}

impl Limited for AllOf {
    ghost use Rattle.ent_policy.specs.Limits.{all_of_fault};

    ghost exceeds = { all_of_fault };

    #[tactic(auto, unfolding(crate::specs::Limits::all_of_fault))]
    fn fault(&self) -> Option<DocFault> {
        let matches = self.matches.as_slice();
        earlier(filled_fault(matches), fault_in(matches))
    }
}

impl Limited for AnyOf {
    ghost use Rattle.ent_policy.specs.Limits.{any_of_fault};

    ghost exceeds = { any_of_fault };

    #[tactic(auto, unfolding(crate::specs::Limits::any_of_fault))]
    fn fault(&self) -> Option<DocFault> {
        let all_of = self.all_of.as_slice();
        earlier(filled_fault(all_of), fault_in(all_of))
    }
}

#[tactic(auto, unfolding(crate::specs::Limits::target_fault))]
fn target_fault(target: &Target) -> Option<DocFault>
    ensures { result ≡ target_fault target.now }
{
    let any_of = target.any_of.as_slice();
    earlier(length_fault(any_of), fault_in(any_of))
}

impl Limited for VariableDefinition {
    ghost use Rattle.ent_policy.specs.Limits.{definition_fault};

    ghost exceeds = { definition_fault };

    #[tactic(auto, unfolding(crate::specs::Limits::definition_fault))]
    fn fault(&self) -> Option<DocFault> {
        let own = name_fault(self.id.as_str());
        earlier(own, expression_fault(&self.expression))
    }
}

impl Limited for AssignmentExpression {
    ghost use Rattle.ent_policy.specs.Limits.{assignment_fault};

    ghost exceeds = { assignment_fault };

    #[tactic(auto, unfolding(crate::specs::Limits::assignment_fault))]
    fn fault(&self) -> Option<DocFault> {
        first_of(&[
            name_fault(self.attribute.as_str()),
            maybe_name_fault(&self.category),
            maybe_name_fault(&self.issuer),
            expression_fault(&self.expression),
        ])
    }
}

impl Limited for GivenExpression {
    ghost use Rattle.ent_policy.specs.Limits.{given_expression_fault};

    ghost exceeds = { given_expression_fault };

    #[tactic(auto, unfolding(crate::specs::Limits::given_expression_fault))]
    fn fault(&self) -> Option<DocFault> {
        let assignments = self.assignments.as_slice();
        first_of(&[
            name_fault(self.id.as_str()),
            length_fault(assignments),
            fault_in(assignments),
        ])
    }
}

#[tactic(auto, unfolding(crate::specs::Limits::given_fault))]
fn given_fault(given: &GivenExpressions) -> Option<DocFault>
    ensures { result ≡ given_fault given.now }
{
    let obligations = given.obligations.as_slice();
    let advice = given.advice.as_slice();
    first_of(&[
        length_fault(obligations),
        length_fault(advice),
        fault_in(obligations),
        fault_in(advice),
    ])
}

impl Limited for Rule {
    ghost use Rattle.ent_policy.specs.Limits.{rule_fault};

    ghost exceeds = { rule_fault };

    #[tactic(auto, unfolding(crate::specs::Limits::rule_fault))]
    fn fault(&self) -> Option<DocFault> {
        let condition = match &self.condition {
            None => None,
            Some(condition) => expression_fault(condition),
        };
        first_of(&[
            name_fault(self.id.as_str()),
            target_fault(&self.target),
            condition,
            given_fault(&self.given),
        ])
    }
}

/// Whether two rules have the same identifier.
fn has_double_rule(alloc: Global, rules: &[Rule]) -> Result<bool, AllocError>
    ensures { IfOk result (λ b. b ≡ has_double (map (λ r. r.id) rules.now)) }
{
    let mut seen = BTreeSet::new(alloc);
    for rule in rules {
        if !seen.insert(rule.id.as_str())? {
            return Ok(true);
        }
    }
    Ok(false)
}

#[tactic(auto, unfolding(crate::specs::Limits::policy_fault))]
fn policy_fault(alloc: Global, policy: &Policy) -> Result<Option<DocFault>, AllocError>
    ensures { IfOk result (λ f. f ≡ policy_fault policy.now) }
{
    let variables = policy.variables.as_slice();
    let rules = policy.rules.as_slice();
    let double = has_double_rule(alloc, rules)?;
    Ok(first_of(&[
        name_fault(policy.id.as_str()),
        if_so(double, DocFault::Identifier),
        length_fault(variables),
        length_fault(rules),
        target_fault(&policy.target),
        fault_in(variables),
        fault_in(rules),
        given_fault(&policy.given),
    ]))
}

/// The first limit that is exceeded in a document.
pub(crate) fn limit_fault(alloc: Global, tree: &Tree) -> Result<Option<DocFault>, AllocError>
    ensures { IfOk result (λ f. f ≡ limit_fault (as_child tree.now)) }
{
    match tree {
        Tree::Policy(policy) => policy_fault(alloc, policy),
        Tree::Set(set) => set_fault(alloc, set),
    }
}

/// The first limit that is exceeded in a child of a set. The identifier of a reference is a name.
#[cycle(child)]
fn child_fault(alloc: Global, child: &Child) -> Result<Option<DocFault>, AllocError>
    ensures { IfOk result (λ f. f ≡ limit_fault child.now) }
{
    match child {
        Child::Policy(policy) => policy_fault(alloc, policy),
        Child::Set(set) => set_fault(alloc, set),
        Child::Reference(_) => Ok(None),
    }
}

#[cycle(child)]
#[tactic(auto, using(crate::proofs::Exceeded::limits_of_set))]
fn set_fault(alloc: Global, set: &PolicySet) -> Result<Option<DocFault>, AllocError>
    ensures { IfOk result (λ f. f ≡ limit_fault (Set set.now)) }
{
    let children = set.children.as_slice();
    let inside = fault_in_children(alloc, children)?;
    Ok(first_of(&[
        name_fault(set.id.as_str()),
        length_fault(children),
        target_fault(&set.target),
        inside,
        given_fault(&set.given),
    ]))
}

#[cycle(child)]
fn fault_in_children(alloc: Global, children: &[Child]) -> Result<Option<DocFault>, AllocError>
    ensures { IfOk result (λ f. f ≡ first_of (map limit_fault children.now)) }
{
    let mut first = None;
    for child in children {
        first = earlier(first, child_fault(alloc, child)?);
    }
    Ok(first)
}
