//! Documents and their rules, as the form has them.

ghost use Rattle.std.specs.Prelude.{◌≡◌, IfErr, IsTrue, codes, map};
ghost use Rattle.serde_json.specs.View.{items_of};
ghost use Rattle.ent_policy.specs.Gives.{Gives};
ghost use Rattle.ent_policy.specs.declared.fault.CheckFault.TheVariants.{Memory};
ghost use Rattle.ent_polform.specs.Form.{child_by, child_of, definition_of, document_of, id_named, id_of, policy_of};
ghost use Rattle.ent_polform.specs.Form.{raw_named, raw_of, rule_of, set_by};
ghost use Rattle.ent_polform.specs.Objects.{each_by};
ghost use Rattle.ent_polform.specs.Reading.{has_form};

use crate::expression::{condition_at, expression};
use crate::given::{effect, given_at};
use crate::objects::required;
use crate::reference::{kind, reference};
use crate::target::target_at;
use ent_json::{JsonTree, list_at, text_at, text_or_absent};
use ent_policy::{
    CheckFault, DocFault, Document, RawChild, RawDocument, RawPolicy, RawPolicySet, RawRule,
    RawVariableDefinition, check,
};
use ent_values::Items;
use std::alloc::Global;

/// A VariableDefinition (section 5.23), as read. The only fault that is found here is one of its form.
///
/// Its contract is an equation but for memory.
#[tactic(auto, unfolding(crate::specs::Form::definition_of))]
pub fn definition<J: JsonTree>(
    alloc: Global,
    object: &J,
) -> Result<RawVariableDefinition, CheckFault>
    ensures { Gives result (definition_of (J.content object.now)) }
{
    if !object.has_only(&["Expression", "VariableId"]) {
        return Err(CheckFault::Doc(DocFault::Form));
    }
    let id = required(alloc, object, "VariableId")?;
    let value = object.get("Expression").ok_or(DocFault::Form)?;
    let expression = expression(alloc, value)?;
    Ok(RawVariableDefinition { id, expression })
}

/// VariableDefinitions, one for each value.
fn definitions<J: JsonTree>(
    alloc: Global,
    values: &[J],
) -> Result<Items<RawVariableDefinition>, CheckFault>
    ensures { Gives result (each_by definition_of (items_of (map J.content values.now))) }
{
    let mut all = Items::with_capacity(alloc, values.len())?;
    for value in values {
        all.push(definition(alloc, value)?)?;
    }
    Ok(all)
}

/// A Rule (section 5.21), as read. The only fault that is found here is one of its form.
///
/// Its contract is an equation but for memory.
#[tactic(auto, unfolding(crate::specs::Form::rule_of))]
pub fn rule<J: JsonTree>(alloc: Global, object: &J) -> Result<RawRule, CheckFault>
    ensures { Gives result (rule_of (J.content object.now)) }
{
    let keys = [
        "AdviceExpressions",
        "Condition",
        "Description",
        "Effect",
        "ObligationExpressions",
        "RuleId",
        "Target",
    ];
    if !object.has_only(&keys) || !text_or_absent(object, "Description") {
        return Err(CheckFault::Doc(DocFault::Form));
    }
    let id = required(alloc, object, "RuleId")?;
    let effect = text_at(object, "Effect")
        .and_then(effect)
        .ok_or(DocFault::Form)?;
    let target = target_at(alloc, object)?;
    let condition = condition_at(alloc, object)?;
    let given = given_at(alloc, object)?;
    Ok(RawRule {
        id,
        effect,
        target,
        condition,
        given,
    })
}

/// Rules, one for each value.
fn rules<J: JsonTree>(alloc: Global, values: &[J]) -> Result<Items<RawRule>, CheckFault>
    ensures { Gives result (each_by rule_of (items_of (map J.content values.now))) }
{
    let mut all = Items::with_capacity(alloc, values.len())?;
    for value in values {
        all.push(rule(alloc, value)?)?;
    }
    Ok(all)
}

/// A Policy (section 5.14), as read. The only fault that is found here is one of its form.
///
/// Its contract is an equation but for memory.
#[tactic(auto, unfolding(crate::specs::Form::policy_of, crate::specs::Form::id_named))]
pub fn policy<J: JsonTree>(alloc: Global, object: &J) -> Result<RawPolicy, CheckFault>
    ensures read { Gives result (policy_of (J.content object.now)) }
    ensures memory { IfErr result (λ e. e ≡ Memory
        → IsTrue (has_form (id_named (codes "Policy") (J.content object.now)))) }
{
    let keys = [
        "AdviceExpressions",
        "Description",
        "ObligationExpressions",
        "PolicyId",
        "Rule",
        "RuleCombiningAlgId",
        "Target",
        "VariableDefinition",
        "Version",
    ];
    if !object.has_only(&keys) || !text_or_absent(object, "Description") {
        return Err(CheckFault::Doc(DocFault::Form));
    }
    let id = required(alloc, object, "PolicyId")?;
    let version = required(alloc, object, "Version")?;
    let algorithm = required(alloc, object, "RuleCombiningAlgId")?;
    let target = target_at(alloc, object)?;
    let listed = list_at(object, "VariableDefinition").ok_or(DocFault::Form)?;
    let variables = definitions(alloc, listed)?;
    let rules = rules(alloc, list_at(object, "Rule").ok_or(DocFault::Form)?)?;
    let given = given_at(alloc, object)?;
    Ok(RawPolicy {
        id,
        version,
        algorithm,
        target,
        variables,
        rules,
        given,
    })
}

/// A PolicySet (section 5.1), as read. The only fault that is found here is one of its form.
///
/// Its contract is an equation but for memory.
#[cycle(child)]
#[tactic(auto, unfolding(crate::specs::Form::set_by, crate::specs::Form::id_named))]
pub fn set<J: JsonTree>(alloc: Global, object: &J) -> Result<RawPolicySet, CheckFault>
    ensures read { Gives result (set_by child_of (J.content object.now)) }
    ensures memory { IfErr result (λ e. e ≡ Memory
        → IsTrue (has_form (id_named (codes "PolicySet") (J.content object.now)))) }
{
    let keys = [
        "AdviceExpressions",
        "Children",
        "Description",
        "ObligationExpressions",
        "PolicyCombiningAlgId",
        "PolicySetId",
        "Target",
        "Version",
    ];
    if !object.has_only(&keys) || !text_or_absent(object, "Description") {
        return Err(CheckFault::Doc(DocFault::Form));
    }
    let id = required(alloc, object, "PolicySetId")?;
    let version = required(alloc, object, "Version")?;
    let algorithm = required(alloc, object, "PolicyCombiningAlgId")?;
    let target = target_at(alloc, object)?;
    let Some(values) = list_at(object, "Children") else {
        return Err(CheckFault::Doc(DocFault::Form));
    };
    let children = children(alloc, values)?;
    let given = given_at(alloc, object)?;
    Ok(RawPolicySet {
        id,
        version,
        algorithm,
        target,
        children,
        given,
    })
}

/// Children, one for each value.
#[cycle(child)]
fn children<J: JsonTree>(alloc: Global, values: &[J]) -> Result<Items<RawChild>, CheckFault>
    ensures { Gives result (each_by child_of (items_of (map J.content values.now))) }
{
    let mut all = Items::with_capacity(alloc, values.len())?;
    for value in values {
        all.push(child(alloc, value)?)?;
    }
    Ok(all)
}

/// A child of a set, a reference or a document, as read. The only fault that is found here is one of its form.
///
/// Its contract is an equation but for memory.
#[cycle(child)]
pub fn child<J: JsonTree>(alloc: Global, json: &J) -> Result<RawChild, CheckFault>
    ensures { Gives result (child_by child_of (J.content json.now)) }
{
    let Some((key, body)) = json.one_member() else {
        return Err(CheckFault::Doc(DocFault::Form));
    };
    if let Some(kind) = kind(key) {
        return Ok(RawChild::Reference(reference(alloc, kind, body)?));
    }
    match document(alloc, key, body)? {
        RawDocument::Policy(policy) => Ok(RawChild::Policy(policy)),
        RawDocument::Set(set) => Ok(RawChild::Set(set)),
    }
}

/// The document of that key.
#[cycle(child)]
#[tactic(auto, unfolding(crate::specs::Form::raw_named))]
fn document<J: JsonTree>(alloc: Global, key: &str, body: &J) -> Result<RawDocument, CheckFault>
    ensures read { Gives result (raw_named child_of key.now (J.content body.now)) }
    ensures memory { IfErr result (λ e. e ≡ Memory → IsTrue (has_form (id_named key.now (J.content body.now)))) }
{
    if key == "Policy" {
        return Ok(RawDocument::Policy(policy(alloc, body)?));
    }
    if key == "PolicySet" {
        return Ok(RawDocument::Set(set(alloc, body)?));
    }
    Err(CheckFault::Doc(DocFault::Form))
}

/// The document that a JSON value spells, as read. The only fault that is found here is one of its form.
///
/// Its contract is an equation but for memory.
#[tactic(auto, unfolding(crate::specs::Form::raw_of, crate::specs::Form::id_of))]
pub fn raw_document<J: JsonTree>(alloc: Global, json: &J) -> Result<RawDocument, CheckFault>
    ensures read { Gives result (raw_of (J.content json.now)) }
    ensures memory { IfErr result (λ e. e ≡ Memory → IsTrue (has_form (id_of (J.content json.now)))) }
{
    let (key, body) = json.one_member().ok_or(DocFault::Form)?;
    document(alloc, key, body)
}

/// The document that a JSON value spells: an object `{"Policy": {..}}` (section 5.14) or `{"PolicySet": {..}}` (section
/// 5.1).
///
/// A Policy has the keys PolicyId, Version and RuleCombiningAlgId, and may have Description, Target, VariableDefinition
/// and Rule. A PolicySet has PolicySetId, Version and PolicyCombiningAlgId, and may have Description, Target and
/// Children, a list of documents and references, the latter as [`crate::read_reference`] reads them. A Rule has RuleId
/// and Effect, and may have Description, Target and Condition, an expression. A VariableDefinition has VariableId and
/// Expression. A Target may have AnyOf, a list of objects with AllOf, each a list of objects with Match; neither AllOf
/// nor Match may be empty. A Match has MatchId, AttributeValue and AttributeDesignator.
///
/// Each of a Policy, a PolicySet and a Rule may also have ObligationExpressions, a list of {ObligationId, FulfillOn,
/// AttributeAssignmentExpression?}, and AdviceExpressions, a list of {AdviceId, AppliesTo,
/// AttributeAssignmentExpression?}. FulfillOn and AppliesTo are Permit or Deny; an AttributeAssignmentExpression is a
/// list of {AttributeId, Category?, Issuer?, Expression}.
///
/// An expression is an object with one key: AttributeValue {DataType?, Value}, AttributeDesignator {Category,
/// AttributeId, DataType, Issuer?, MustBePresent?}, VariableReference {VariableId}, Apply {FunctionId, Arguments?} or
/// Function {FunctionId}. A Value is a text, a boolean, or a whole number of 64 bits. MustBePresent is false where it
/// is absent. A description is a text that isn't kept. Each other text is copied once.
///
/// # Errors
///
/// [`DocFault::Form`] for every other key or kind of value, wherever it stands, before any other fault of the document.
/// Then the first fault that [`ent_policy::check`] finds. [`CheckFault::Memory`] if memory runs out, never where the
/// value is no object of one key Policy or PolicySet, or where the object at that key has a key that isn't one of the
/// above, or no text as its id.
///
/// Its contract is an equation but for memory.
#[tactic(auto, unfolding(crate::specs::Form::document_of), using(crate::proofs::IdLemmas::id_read))]
pub fn read_document<J: JsonTree>(alloc: Global, json: &J) -> Result<Document, CheckFault>
    ensures document { Gives result (document_of (J.content json.now)) }
    ensures memory { IfErr result (λ e. e ≡ Memory → IsTrue (has_form (id_of (J.content json.now)))) }
{
    check(alloc, raw_document(alloc, json)?)
}
