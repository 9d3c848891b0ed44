//! What is told of a leaf of a document: a text, a flag or a literal, judged by itself.

ghost use Rattle.std.specs.Prelude.{◌≡◌, is_some, not};
ghost use Rattle.ent_policy.specs.First.{if_so};
ghost use Rattle.ent_polform.specs.Expressions.{literal_of};
ghost use Rattle.ent_polform.specs.Given.{effect_of};
ghost use Rattle.lint_places.specs.Told.{fault_of_read, leaf_told, text_told};
ghost use Rattle.lint_places.specs.Views.{Tells};

use crate::part::Part;
use ent_combine::{PolicyAlg, RuleAlg};
use ent_functions::Function;
use ent_json::JsonTree;
use ent_policy::{CheckFault, DocFault, Version, VersionMatch, is_bad_name};
use ent_values::DataType;

/// Passes where the test says so, or else tells the fault.
fn only_if(test: bool, fault: DocFault) -> Result<(), CheckFault>
    ensures { Tells result (if_so (not test) fault) }
{
    if test {
        Ok(())
    } else {
        Err(CheckFault::Doc(fault))
    }
}

/// Judges a literal: a text, a flag or a whole number of 64 bits.
#[tactic(auto, using(crate::proofs::LeafLemmas::literal_is))]
fn literal<J: JsonTree>(json: &J) -> Result<(), CheckFault>
    ensures { Tells result (fault_of_read (literal_of (J.content json.now))) }
{
    let is_literal = json.as_str().is_some() || json.as_bool().is_some() || json.as_i64().is_some();
    only_if(is_literal, DocFault::Form)
}

/// Whether it is the name of an effect.
fn is_effect(name: &str) -> bool
    ensures { result ≡ is_some (effect_of name.now) }
{
    name == "Permit" || name == "Deny"
}

/// Judges a text by what it is for.
#[tactic(auto, unfolding(crate::specs::Told::text_told))]
fn text(part: Part, text: &str) -> Result<(), CheckFault>
    ensures { Tells result (text_told part text.now) }
{
    match part {
        Part::Name => only_if(!is_bad_name(text), DocFault::Identifier),
        Part::Version => only_if(Version::parse(text).is_some(), DocFault::Version),
        Part::Pattern => only_if(VersionMatch::parse(text).is_some(), DocFault::Version),
        Part::RuleAlgorithm => only_if(RuleAlg::from_id(text).is_some(), DocFault::Algorithm),
        Part::PolicyAlgorithm => only_if(PolicyAlg::from_id(text).is_some(), DocFault::Algorithm),
        Part::Function => only_if(Function::from_id(text).is_some(), DocFault::Function),
        Part::DataType => only_if(DataType::from_name(text).is_some(), DocFault::Type),
        Part::Effect => only_if(is_effect(text), DocFault::Form),
        _ => Ok(()),
    }
}

/// Judges a leaf.
#[tactic(auto, unfolding(crate::specs::Told::leaf_told))]
pub(crate) fn leaf<J: JsonTree>(part: Part, json: &J) -> Result<(), CheckFault>
    ensures { Tells result (leaf_told part (J.content json.now)) }
{
    match part {
        Part::Literal => literal(json),
        Part::Flag => only_if(json.as_bool().is_some(), DocFault::Form),
        _ => text(part, json.as_str().ok_or(DocFault::Form)?),
    }
}
