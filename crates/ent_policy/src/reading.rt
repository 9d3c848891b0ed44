//! From the parts of a document as read to those that are stored.

ghost use Rattle.std.specs.Prelude.{◌≡◌, IfOk};
ghost use Rattle.ent_policy.specs.Reading.{designator_read, expression_read, function_read};
ghost use Rattle.ent_policy.specs.proofs_only.Reading.{apply_read};
ghost use Rattle.ent_policy.specs.Reading.{child_read, document_read, each_read, maybe_read, policy_read, set_read};
ghost use Rattle.ent_policy.specs.Reading.{definition_read, given_read, policy_algorithm_read, rule_algorithm_read};
ghost use Rattle.ent_policy.specs.Reading.{rule_read, target_read, version_read};

use crate::document::{
    AllOf, AnyOf, Child, Designator, Match, Policy, PolicySet, Rule, Target, Tree,
};
use crate::expression::{Expression, VariableDefinition};
use crate::fault::DocFault;
use crate::first::{earlier, first_of};
use crate::given::GivenExpressions;
use crate::literals::value;
use crate::raw::{
    RawAllOf, RawAnyOf, RawChild, RawDesignator, RawDocument, RawExpression, RawGivenExpressions,
    RawMatch, RawPolicy, RawPolicySet, RawRule, RawTarget, RawVariableDefinition,
};
use crate::read::{Read, Readable, done, each, known, made};
use crate::reading_given::given;
use crate::reading_reference::reference;
use crate::version::Version;
use ent_combine::{PolicyAlg, RuleAlg};
use ent_functions::Function;
use ent_values::{DataType, Items, Text};
use std::alloc::{AllocError, Global};

fn function(id: &str) -> Read<Function>
    ensures { result ≡ function_read id.now }
{
    known(Function::Add, DocFault::Function, Function::from_id(id))
}

fn version(text: &str) -> Read<Version>
    ensures { result ≡ version_read text.now }
{
    known(Version::zero(), DocFault::Version, Version::parse(text))
}

fn rule_algorithm(id: &str) -> Read<RuleAlg>
    ensures { result ≡ rule_algorithm_read id.now }
{
    let stand_in = RuleAlg::DenyOverrides;
    known(stand_in, DocFault::Algorithm, RuleAlg::from_id(id))
}

fn policy_algorithm(id: &str) -> Read<PolicyAlg>
    ensures { result ≡ policy_algorithm_read id.now }
{
    let stand_in = PolicyAlg::OnlyOne;
    known(stand_in, DocFault::Algorithm, PolicyAlg::from_id(id))
}

#[tactic(auto, unfolding(crate::specs::Reading::designator_read))]
fn designator(raw: RawDesignator) -> Read<Designator>
    ensures { result ≡ designator_read raw }
{
    let RawDesignator {
        category,
        attribute,
        datatype,
        issuer,
        must_be_present,
    } = raw;
    let found = DataType::from_name(datatype.as_str());
    let datatype = known(DataType::Text, DocFault::Type, found);
    made(
        datatype,
        move |datatype| Designator {
            category,
            attribute,
            datatype,
            issuer,
            must_be_present,
        },
    )
}

/// An expression.
#[cycle(expression)]
#[tactic(auto, using(crate::proofs::WhatIsRead::apply_is_read))]
pub(crate) fn expression(alloc: Global, raw: RawExpression) -> Result<Read<Expression>, AllocError>
    ensures { IfOk result (λ r. r ≡ expression_read raw) }
{
    match raw {
        RawExpression::Value(raw) => Ok(made(value(alloc, raw)?, |v| Expression::Value(v))),
        RawExpression::Designator(raw) => Ok(made(designator(raw), |d| Expression::Designator(d))),
        RawExpression::Variable(id) => Ok(done(Expression::Variable(id))),
        RawExpression::Apply(id, arguments) => apply(alloc, id, arguments),
        RawExpression::Function(id) => {
            Ok(made(function(id.as_str()), |f| Expression::Function(f)))
        }
    }
}

/// A function of arguments.
#[cycle(expression)]
fn apply(
    alloc: Global,
    id: Text,
    arguments: Items<RawExpression>,
) -> Result<Read<Expression>, AllocError>
    ensures { IfOk result (λ r. r ≡ apply_read id arguments) }
{
    let function = function(id.as_str());
    let all = expressions(alloc, arguments)?;
    Ok(Read {
        value: Expression::Apply(function.value, all.value),
        fault: first_of(&[function.fault, all.fault]),
    })
}

/// The arguments.
#[cycle(expression)]
fn expressions(
    alloc: Global,
    raw: Items<RawExpression>,
) -> Result<Read<Items<Expression>>, AllocError>
    ensures { IfOk result (λ r. r ≡ each_read expression_read raw) }
{
    let mut value = Items::with_capacity(alloc, raw.len())?;
    let mut fault = None;
    for part in raw.into_vec() {
        let Read {
            value: one,
            fault: found,
        } = expression(alloc, part)?;
        value.push(one)?;
        fault = earlier(fault, found);
    }
    Ok(Read { value, fault })
}

impl Readable<Match> for RawMatch {
    ghost use Rattle.ent_policy.specs.Reading.{match_read};

    ghost what = { match_read };

    #[tactic(auto, unfolding(crate::specs::Reading::match_read))]
    fn read(self, alloc: Global) -> Result<Read<Match>, AllocError> {
        let RawMatch {
            function: id,
            literal,
            designator: named,
        } = self;
        let function = function(id.as_str());
        let literal = value(alloc, literal)?;
        let designator = designator(named);
        Ok(Read {
            fault: first_of(&[function.fault, literal.fault, designator.fault]),
            value: Match {
                function: function.value,
                literal: literal.value,
                designator: designator.value,
            },
        })
    }
}

impl Readable<AllOf> for RawAllOf {
    ghost use Rattle.ent_policy.specs.Reading.{all_of_read};

    ghost what = { all_of_read };

    #[tactic(auto, unfolding(crate::specs::Reading::all_of_read))]
    fn read(self, alloc: Global) -> Result<Read<AllOf>, AllocError> {
        Ok(made(each(alloc, self.matches)?, |matches| AllOf { matches }))
    }
}

impl Readable<AnyOf> for RawAnyOf {
    ghost use Rattle.ent_policy.specs.Reading.{any_of_read};

    ghost what = { any_of_read };

    #[tactic(auto, unfolding(crate::specs::Reading::any_of_read))]
    fn read(self, alloc: Global) -> Result<Read<AnyOf>, AllocError> {
        Ok(made(each(alloc, self.all_of)?, |all_of| AnyOf { all_of }))
    }
}

#[tactic(auto, unfolding(crate::specs::Reading::target_read))]
fn target(alloc: Global, raw: RawTarget) -> Result<Read<Target>, AllocError>
    ensures { IfOk result (λ r. r ≡ target_read raw) }
{
    Ok(made(each(alloc, raw.any_of)?, |any_of| Target { any_of }))
}

/// The target, and the obligations and advice, of a rule, a policy or a set.
fn target_and_given(
    alloc: Global,
    meant: RawTarget,
    meant_given: RawGivenExpressions,
) -> Result<(Read<Target>, Read<GivenExpressions>), AllocError>
    ensures { IfOk result (λ r. (r.0 ≡ target_read meant) × (r.1 ≡ given_read meant_given)) }
{
    let target = target(alloc, meant)?;
    Ok((target, given(alloc, meant_given)?))
}

impl Readable<VariableDefinition> for RawVariableDefinition {
    ghost use Rattle.ent_policy.specs.Reading.{definition_read};

    ghost what = { definition_read };

    #[tactic(auto, unfolding(crate::specs::Reading::definition_read))]
    fn read(self, alloc: Global) -> Result<Read<VariableDefinition>, AllocError> {
        let RawVariableDefinition {
            id,
            expression: meant,
        } = self;
        Ok(made(expression(alloc, meant)?, move |expression| {
            VariableDefinition { id, expression }
        }))
    }
}

fn condition(
    alloc: Global,
    raw: Option<RawExpression>,
) -> Result<Read<Option<Expression>>, AllocError>
    ensures { IfOk result (λ r. r ≡ maybe_read expression_read raw) }
{
    match raw {
        None => Ok(done(None)),
        Some(meant) => Ok(made(expression(alloc, meant)?, |tested| Some(tested))),
    }
}

impl Readable<Rule> for RawRule {
    ghost use Rattle.ent_policy.specs.Reading.{rule_read};

    ghost what = { rule_read };

    #[tactic(auto, unfolding(crate::specs::Reading::rule_read))]
    fn read(self, alloc: Global) -> Result<Read<Rule>, AllocError> {
        let RawRule {
            id,
            effect,
            target: meant,
            condition: tested,
            given: meant_given,
        } = self;
        let (target, given) = target_and_given(alloc, meant, meant_given)?;
        let condition = condition(alloc, tested)?;
        Ok(Read {
            fault: first_of(&[target.fault, condition.fault, given.fault]),
            value: Rule {
                id,
                effect,
                target: target.value,
                condition: condition.value,
                given: given.value,
            },
        })
    }
}

/// The variables and the rules of a policy.
fn variables_and_rules(
    alloc: Global,
    meant: Items<RawVariableDefinition>,
    tested: Items<RawRule>,
) -> Result<(Read<Items<VariableDefinition>>, Read<Items<Rule>>), AllocError>
    ensures { IfOk result (λ r. (r.0 ≡ each_read definition_read meant) × (r.1 ≡ each_read rule_read tested)) }
{
    let variables = each(alloc, meant)?;
    Ok((variables, each(alloc, tested)?))
}

#[tactic(auto, unfolding(crate::specs::Reading::policy_read))]
fn policy(alloc: Global, raw: RawPolicy) -> Result<Read<Policy>, AllocError>
    ensures { IfOk result (λ r. r ≡ policy_read raw) }
{
    let version = version(raw.version.as_str());
    let algorithm = rule_algorithm(raw.algorithm.as_str());
    let (target, given) = target_and_given(alloc, raw.target, raw.given)?;
    let (variables, rules) = variables_and_rules(alloc, raw.variables, raw.rules)?;
    Ok(Read {
        fault: first_of(&[
            version.fault,
            algorithm.fault,
            target.fault,
            variables.fault,
            rules.fault,
            given.fault,
        ]),
        value: Policy {
            id: raw.id,
            version: version.value,
            algorithm: algorithm.value,
            target: target.value,
            variables: variables.value,
            rules: rules.value,
            given: given.value,
        },
    })
}

/// A document.
pub(crate) fn document(alloc: Global, raw: RawDocument) -> Result<Read<Tree>, AllocError>
    ensures { IfOk result (λ r. r ≡ document_read raw) }
{
    match raw {
        RawDocument::Policy(raw) => Ok(made(policy(alloc, raw)?, |policy| Tree::Policy(policy))),
        RawDocument::Set(raw) => Ok(made(set(alloc, raw)?, |set| Tree::Set(set))),
    }
}

/// A child of a set.
#[cycle(child)]
#[tactic(auto, using(crate::proofs::WhatIsRead::set_is_read))]
fn child(alloc: Global, raw: RawChild) -> Result<Read<Child>, AllocError>
    ensures { IfOk result (λ r. r ≡ child_read raw) }
{
    match raw {
        RawChild::Policy(raw) => Ok(made(policy(alloc, raw)?, |policy| Child::Policy(policy))),
        RawChild::Set(raw) => Ok(made(set(alloc, raw)?, |set| Child::Set(set))),
        RawChild::Reference(raw) => {
            Ok(made(
                reference(alloc, raw)?,
                |reference| Child::Reference(reference),
            ))
        }
    }
}

/// A set.
#[cycle(child)]
#[tactic(auto, unfolding(crate::specs::Reading::set_read))]
fn set(alloc: Global, raw: RawPolicySet) -> Result<Read<PolicySet>, AllocError>
    ensures { IfOk result (λ r. r ≡ set_read raw) }
{
    let version = version(raw.version.as_str());
    let algorithm = policy_algorithm(raw.algorithm.as_str());
    let (target, given) = target_and_given(alloc, raw.target, raw.given)?;
    let children = children(alloc, raw.children)?;
    Ok(Read {
        fault: first_of(&[
            version.fault,
            algorithm.fault,
            target.fault,
            children.fault,
            given.fault,
        ]),
        value: PolicySet {
            id: raw.id,
            version: version.value,
            algorithm: algorithm.value,
            target: target.value,
            children: children.value,
            given: given.value,
        },
    })
}

/// The children of a set.
#[cycle(child)]
fn children(alloc: Global, raw: Items<RawChild>) -> Result<Read<Items<Child>>, AllocError>
    ensures { IfOk result (λ r. r ≡ each_read child_read raw) }
{
    let mut value = Items::with_capacity(alloc, raw.len())?;
    let mut fault = None;
    for part in raw.into_vec() {
        let Read {
            value: one,
            fault: found,
        } = child(alloc, part)?;
        value.push(one)?;
        fault = earlier(fault, found);
    }
    Ok(Read { value, fault })
}
