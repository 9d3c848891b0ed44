//! Targets and their matches, written straight into a text.

ghost use Rattle.std.specs.Prelude.{◌≡◌, ◌++◌, OnOk, codes, map};
ghost use Rattle.ent_json.specs.Text.{tokens_of};
ghost use Rattle.ent_json.specs.proofs_only.Keyed.{optional_tokens};
ghost use Rattle.ent_json.specs.proofs_only.Text.{items_tokens_of};
ghost use Rattle.ent_polform.specs.Written.{all_of_written, any_of_written, match_written, target_written};

use crate::text_values::{write_designator, write_literal};
use ent_json::{JsonText, write_text};
use ent_policy::{AllOf, AnyOf, Match, Target};
use std::alloc::{AllocError, Global};

/// Writes a Match.
fn write_match(alloc: Global, out: &mut JsonText, test: &Match) -> Result<(), AllocError>
    ensures { OnOk result (out.new ≡ out.old ++ tokens_of (match_written test.now)) }
{
    let id = test.function.id(alloc)?;
    out.begin_object()?;
    out.key("AttributeDesignator")?;
    write_designator(out, &test.designator)?;
    out.key("AttributeValue")?;
    write_literal(alloc, out, &test.literal)?;
    write_text(out, "MatchId", id.as_str())?;
    out.end_object()
}

/// Writes Matches, to the end of their list.
fn write_matches(alloc: Global, out: &mut JsonText, tests: &[Match]) -> Result<(), AllocError>
    ensures { OnOk result (out.new ≡ out.old ++ items_tokens_of (map match_written tests.now)) }
{
    for test in tests {
        write_match(alloc, out, test)?;
    }
    out.end_array()
}

/// Writes a member of AllOf.
fn write_all_of(alloc: Global, out: &mut JsonText, member: &AllOf) -> Result<(), AllocError>
    ensures { OnOk result (out.new ≡ out.old ++ tokens_of (all_of_written member.now)) }
{
    out.begin_object()?;
    out.key("Match")?;
    out.begin_array()?;
    write_matches(alloc, out, member.matches.as_slice())?;
    out.end_object()
}

/// Writes members of AllOf, to the end of their list.
fn write_each_all_of(alloc: Global, out: &mut JsonText, members: &[AllOf]) -> Result<(), AllocError>
    ensures { OnOk result (out.new ≡ out.old ++ items_tokens_of (map all_of_written members.now)) }
{
    for member in members {
        write_all_of(alloc, out, member)?;
    }
    out.end_array()
}

/// Writes a member of AnyOf.
fn write_any_of(alloc: Global, out: &mut JsonText, member: &AnyOf) -> Result<(), AllocError>
    ensures { OnOk result (out.new ≡ out.old ++ tokens_of (any_of_written member.now)) }
{
    out.begin_object()?;
    out.key("AllOf")?;
    out.begin_array()?;
    write_each_all_of(alloc, out, member.all_of.as_slice())?;
    out.end_object()
}

/// Writes members of AnyOf, to the end of their list.
fn write_each_any_of(alloc: Global, out: &mut JsonText, members: &[AnyOf]) -> Result<(), AllocError>
    ensures { OnOk result (out.new ≡ out.old ++ items_tokens_of (map any_of_written members.now)) }
{
    for member in members {
        write_any_of(alloc, out, member)?;
    }
    out.end_array()
}

/// Writes a Target at its key, unless it has no AnyOf.
#[tactic(auto, unfolding(crate::specs::Written::target_written))]
pub(crate) fn write_target(
    alloc: Global,
    out: &mut JsonText,
    target: &Target,
) -> Result<(), AllocError>
    ensures { OnOk result (out.new ≡ out.old ++ optional_tokens (codes "Target") (target_written target.now)) }
{
    let any_of = target.any_of.as_slice();
    if any_of.is_empty() {
        return Ok(());
    }
    out.key("Target")?;
    out.begin_object()?;
    out.key("AnyOf")?;
    out.begin_array()?;
    write_each_any_of(alloc, out, any_of)?;
    out.end_object()
}
