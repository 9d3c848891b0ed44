//! Matches that no value meets.

ghost use Rattle.std.specs.Prelude.{◌≡◌, ◌++◌, OnOk, codes, map};
ghost use Rattle.lint_meaning.specs.Places.{numbered};
ghost use Rattle.lint_meaning.specs.Targets.{all_of_told, any_of_told, match_told, target_told};

use crate::bounds::is_unmet_from;
use crate::places::{member, put};
use crate::warning::{Meaning, Warning};
use ent_policy::{AllOf, AnyOf, Match, Target};
use ent_values::Items;
use std::alloc::{AllocError, Global};

/// Puts that no value meets a match last, if none does.
fn tell_match(
    alloc: Global,
    pointer: &str,
    one: &Match,
    warnings: &mut Items<Warning>,
) -> Result<(), AllocError>
    ensures { OnOk result (warnings.new ≡ warnings.old ++ match_told one.now pointer.now) }
{
    if is_unmet_from(one.function, &one.literal) {
        return put(alloc, pointer, Meaning::Least, warnings);
    }
    Ok(())
}

/// Puts what is told of the matches of the `AllOf` at a place last.
fn tell_matches(
    alloc: Global,
    pointer: &str,
    matches: &[Match],
    warnings: &mut Items<Warning>,
) -> Result<(), AllocError>
    ensures { OnOk result (warnings.new ≡ warnings.old
        ++ numbered (codes "Match") 0 (map match_told matches.now) pointer.now) }
{
    for (number, one) in matches.iter().enumerate() {
        let place = member(alloc, pointer, "Match", number)?;
        tell_match(alloc, place.as_str(), one, warnings)?;
    }
    Ok(())
}

/// Puts what is told of those of the `AnyOf` at a place last.
fn tell_all_of(
    alloc: Global,
    pointer: &str,
    all_of: &[AllOf],
    warnings: &mut Items<Warning>,
) -> Result<(), AllocError>
    ensures { OnOk result (warnings.new ≡ warnings.old
        ++ numbered (codes "AllOf") 0 (map all_of_told all_of.now) pointer.now) }
{
    for (number, one) in all_of.iter().enumerate() {
        let place = member(alloc, pointer, "AllOf", number)?;
        tell_matches(alloc, place.as_str(), one.matches.as_slice(), warnings)?;
    }
    Ok(())
}

/// Puts what is told of the target of what stands at a place last.
pub(crate) fn tell_target(
    alloc: Global,
    pointer: &str,
    target: &Target,
    warnings: &mut Items<Warning>,
) -> Result<(), AllocError>
    ensures { OnOk result (warnings.new ≡ warnings.old ++ target_told target.now pointer.now) }
{
    let any_of = target.any_of.as_slice();
    for (number, one) in any_of.iter().enumerate() {
        let place = member(alloc, pointer, "Target/AnyOf", number)?;
        tell_all_of(alloc, place.as_str(), one.all_of.as_slice(), warnings)?;
    }
    Ok(())
}
