//! Documents, their rules and references, written straight into a text.

ghost use Rattle.std.specs.Prelude.{◌≡◌, ◌++◌, OnOk, codes, map, option_map};
ghost use Rattle.ent_json.specs.Members.{filled_list, only_member};
ghost use Rattle.ent_json.specs.Text.{tokens_of};
ghost use Rattle.ent_json.specs.proofs_only.Keyed.{optional_tokens};
ghost use Rattle.ent_json.specs.proofs_only.Text.{items_tokens_of};
ghost use Rattle.ent_polform.specs.Written.{child_written, definition_written, pattern_written, policy_written};
ghost use Rattle.ent_polform.specs.Written.{reference_body, reference_written, rule_written, written};
ghost use Rattle.ent_polform.specs.proofs_only.Written.{set_written};

use crate::reference::reference_key;
use crate::text_expressions::{write_condition, write_expression};
use crate::text_given::{effect_word, write_advice, write_obligations};
use crate::text_targets::write_target;
use ent_json::{JsonText, write_text};
use ent_policy::{
    Child, Document, Policy, PolicySet, Reference, Rule, Tree, VariableDefinition, VersionMatch,
};
use std::alloc::{AllocError, Global};

/// Writes a version pattern at a key, if there is one.
fn write_pattern(
    alloc: Global,
    out: &mut JsonText,
    key: &str,
    pattern: &Option<VersionMatch>,
) -> Result<(), AllocError>
    ensures { OnOk result (out.new ≡ out.old ++ optional_tokens key.now (option_map pattern_written pattern.now)) }
{
    match pattern {
        None => Ok(()),
        Some(pattern) => {
            let text = pattern.text(alloc)?;
            write_text(out, key, text.as_str())
        }
    }
}

/// Writes the id and the constraints of a reference.
fn write_reference_body(
    alloc: Global,
    out: &mut JsonText,
    reference: &Reference,
) -> Result<(), AllocError>
    ensures { OnOk result (out.new ≡ out.old ++ tokens_of (reference_body reference.now)) }
{
    let constraints = &reference.constraints;
    out.begin_object()?;
    write_pattern(alloc, out, "EarliestVersion", &constraints.earliest)?;
    write_text(out, "Id", reference.id.as_str())?;
    write_pattern(alloc, out, "LatestVersion", &constraints.latest)?;
    write_pattern(alloc, out, "Version", &constraints.version)?;
    out.end_object()
}

/// Writes a reference into a text, in the form that [`crate::read_reference`] reads: an object
/// `{"PolicyIdReference": {..}}` or `{"PolicySetIdReference": {..}}` with the key Id, and with each constraint that is
/// there as its written text.
///
/// # Errors
///
/// `AllocError` if memory runs out; a front of the reference may have been written.
///
/// Its contract is an equation but for memory.
pub fn write_reference_text(
    alloc: Global,
    out: &mut JsonText,
    reference: &Reference,
) -> Result<(), AllocError>
    ensures { OnOk result (out.new ≡ out.old ++ tokens_of (reference_written reference.now)) }
{
    out.begin_object()?;
    out.key(reference_key(reference.kind))?;
    write_reference_body(alloc, out, reference)?;
    out.end_object()
}

/// Writes a VariableDefinition.
fn write_definition(
    alloc: Global,
    out: &mut JsonText,
    definition: &VariableDefinition,
) -> Result<(), AllocError>
    ensures { OnOk result (out.new ≡ out.old ++ tokens_of (definition_written definition.now)) }
{
    out.begin_object()?;
    out.key("Expression")?;
    write_expression(alloc, out, &definition.expression)?;
    write_text(out, "VariableId", definition.id.as_str())?;
    out.end_object()
}

/// Writes VariableDefinitions, to the end of their list.
fn write_each_definition(
    alloc: Global,
    out: &mut JsonText,
    all: &[VariableDefinition],
) -> Result<(), AllocError>
    ensures { OnOk result (out.new ≡ out.old ++ items_tokens_of (map definition_written all.now)) }
{
    for one in all {
        write_definition(alloc, out, one)?;
    }
    out.end_array()
}

/// Writes VariableDefinitions at their key, if there are some.
fn write_definitions(
    alloc: Global,
    out: &mut JsonText,
    all: &[VariableDefinition],
) -> Result<(), AllocError>
    ensures { OnOk result (out.new
        ≡ out.old ++ optional_tokens (codes "VariableDefinition") (filled_list (map definition_written all.now))) }
{
    if all.is_empty() {
        return Ok(());
    }
    out.key("VariableDefinition")?;
    out.begin_array()?;
    write_each_definition(alloc, out, all)
}

/// Writes a Rule.
fn write_rule(alloc: Global, out: &mut JsonText, rule: &Rule) -> Result<(), AllocError>
    ensures { OnOk result (out.new ≡ out.old ++ tokens_of (rule_written rule.now)) }
{
    out.begin_object()?;
    write_advice(alloc, out, &rule.given)?;
    write_condition(alloc, out, &rule.condition)?;
    write_text(out, "Effect", effect_word(rule.effect))?;
    write_obligations(alloc, out, &rule.given)?;
    write_text(out, "RuleId", rule.id.as_str())?;
    write_target(alloc, out, &rule.target)?;
    out.end_object()
}

/// Writes Rules, to the end of their list.
fn write_each_rule(alloc: Global, out: &mut JsonText, all: &[Rule]) -> Result<(), AllocError>
    ensures { OnOk result (out.new ≡ out.old ++ items_tokens_of (map rule_written all.now)) }
{
    for one in all {
        write_rule(alloc, out, one)?;
    }
    out.end_array()
}

/// Writes Rules at their key, if there are some.
fn write_rules(alloc: Global, out: &mut JsonText, all: &[Rule]) -> Result<(), AllocError>
    ensures { OnOk result (out.new ≡ out.old ++ optional_tokens (codes "Rule") (filled_list (map rule_written all.now))) }
{
    if all.is_empty() {
        return Ok(());
    }
    out.key("Rule")?;
    out.begin_array()?;
    write_each_rule(alloc, out, all)
}

/// Writes a Policy.
fn write_policy(alloc: Global, out: &mut JsonText, policy: &Policy) -> Result<(), AllocError>
    ensures { OnOk result (out.new ≡ out.old ++ tokens_of (policy_written policy.now)) }
{
    let version = policy.version.text(alloc)?;
    out.begin_object()?;
    write_advice(alloc, out, &policy.given)?;
    write_obligations(alloc, out, &policy.given)?;
    write_text(out, "PolicyId", policy.id.as_str())?;
    write_rules(alloc, out, policy.rules.as_slice())?;
    write_text(out, "RuleCombiningAlgId", policy.algorithm.rule_id())?;
    write_target(alloc, out, &policy.target)?;
    write_definitions(alloc, out, policy.variables.as_slice())?;
    write_text(out, "Version", version.as_str())?;
    out.end_object()
}

/// Writes a PolicySet.
#[cycle(child)]
fn write_set(alloc: Global, out: &mut JsonText, set: &PolicySet) -> Result<(), AllocError>
    ensures { OnOk result (out.new ≡ out.old ++ tokens_of (set_written set.now)) }
{
    let version = set.version.text(alloc)?;
    out.begin_object()?;
    write_advice(alloc, out, &set.given)?;
    write_children(alloc, out, set.children.as_slice())?;
    write_obligations(alloc, out, &set.given)?;
    write_text(out, "PolicyCombiningAlgId", set.algorithm.id())?;
    write_text(out, "PolicySetId", set.id.as_str())?;
    write_target(alloc, out, &set.target)?;
    write_text(out, "Version", version.as_str())?;
    out.end_object()
}

/// Writes children, to the end of their list.
#[cycle(child)]
fn write_each_child(alloc: Global, out: &mut JsonText, all: &[Child]) -> Result<(), AllocError>
    ensures { OnOk result (out.new ≡ out.old ++ items_tokens_of (map child_written all.now)) }
{
    for one in all {
        write_child(alloc, out, one)?;
    }
    out.end_array()
}

/// Writes children at their key, if there are some.
#[cycle(child)]
fn write_children(alloc: Global, out: &mut JsonText, all: &[Child]) -> Result<(), AllocError>
    ensures { OnOk result (out.new
        ≡ out.old ++ optional_tokens (codes "Children") (filled_list (map child_written all.now))) }
{
    if all.is_empty() {
        return Ok(());
    }
    out.key("Children")?;
    out.begin_array()?;
    write_each_child(alloc, out, all)
}

/// Writes a policy as the only member of an object.
fn write_only_policy(alloc: Global, out: &mut JsonText, policy: &Policy) -> Result<(), AllocError>
    ensures { OnOk result (out.new ≡ out.old ++ tokens_of (only_member (codes "Policy") (policy_written policy.now))) }
{
    out.begin_object()?;
    out.key("Policy")?;
    write_policy(alloc, out, policy)?;
    out.end_object()
}

/// Writes a set as the only member of an object.
#[cycle(child)]
fn write_only_set(alloc: Global, out: &mut JsonText, set: &PolicySet) -> Result<(), AllocError>
    ensures { OnOk result (out.new ≡ out.old ++ tokens_of (only_member (codes "PolicySet") (set_written set.now))) }
{
    out.begin_object()?;
    out.key("PolicySet")?;
    write_set(alloc, out, set)?;
    out.end_object()
}

/// Writes a child of a set.
#[cycle(child)]
#[tactic(auto, using(crate::proofs::WrittenLemmas::set_is_written))]
fn write_child(alloc: Global, out: &mut JsonText, child: &Child) -> Result<(), AllocError>
    ensures { OnOk result (out.new ≡ out.old ++ tokens_of (child_written child.now)) }
{
    match child {
        Child::Policy(part) => write_only_policy(alloc, out, part),
        Child::Set(part) => write_only_set(alloc, out, part),
        Child::Reference(part) => write_reference_text(alloc, out, part),
    }
}

/// Writes a document into a text as [`crate::write_document`] has it, so that no JSON value is built for it.
///
/// # Errors
///
/// `AllocError` if memory runs out; a front of the document may have been written.
///
/// Its contract is an equation but for memory.
#[tactic(auto, using(crate::proofs::WrittenLemmas::set_is_written))]
pub fn write_document_text(
    alloc: Global,
    out: &mut JsonText,
    document: &Document,
) -> Result<(), AllocError>
    ensures { OnOk result (out.new ≡ out.old ++ tokens_of (written document.now)) }
{
    match document.tree() {
        Tree::Policy(part) => write_only_policy(alloc, out, part),
        Tree::Set(part) => write_only_set(alloc, out, part),
    }
}
