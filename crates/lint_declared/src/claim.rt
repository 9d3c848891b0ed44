//! What one line is to say, and another isn't to say too: that a name is listed, and which values a row has.

ghost use Rattle.std.specs.Prelude.{◌≡◌, IfOk, OnOk, Some, option_and_then, option_map};
ghost use Rattle.lint_declared.specs.Claims.{behind, dropped_by, category_dropped, module_at, row_of, said_by, standing_behind};
ghost use Rattle.lint_declared.specs.declared.claim.Claim.{Claim};
ghost use Rattle.lint_declared.specs.proofs_only.Claims.{claimed_in};
ghost use Rattle.ent_json.specs.Line.{data_of};

use crate::always::{ACCESS_SUBJECT, ACTION, RESOURCE};
use crate::listed::{ListedName, listed_by};
use crate::setting::{is_setting, setting_of};
use ent_json::{JsonTree, read_json, text_at};
use ent_values::{DataType, Text};
use json::Scratch;
use std::alloc::{AllocError, Global};
use std::collections::BTreeMap;

/// A row that is set: an attribute of a name, in the module of that number.
#[derive(PartialEq, Eq, PartialOrd, Ord, Drop)]
pub struct SetRow {
    pub in_module: u64,
    pub entity: ListedName,
    pub attribute: Text,
    pub datatype: DataType,
    pub issuer: Option<Text>,
}

/// What a line says.
#[derive(PartialEq, Eq, PartialOrd, Ord, Drop)]
pub enum Claim {
    /// That a name is listed.
    Listed(ListedName),
    /// Which values a row has.
    Values(SetRow),
}

/// The category out of whose names a command takes one.
fn category_dropped(word: &str) -> Option<&'static str>
    ensures { option_map (λ s. s.now) result ≡ category_dropped word.now }
{
    if word == "person.drop" {
        Some(ACCESS_SUBJECT)
    } else if word == "action.drop" {
        Some(ACTION)
    } else if word == "resource.drop" {
        Some(RESOURCE)
    } else {
        None
    }
}

/// The name that a line drops, if it does.
#[tactic(auto, unfolding(crate::specs::Claims::dropped_by))]
fn dropped_by<J: JsonTree>(alloc: Global, line: &J) -> Result<Option<ListedName>, AllocError>
    ensures { IfOk result (λ o. o ≡ dropped_by (J.content line.now)) }
{
    let Some(category) = text_at(line, "do").and_then(category_dropped) else {
        return Ok(None);
    };
    let Some(name) = text_at(line, "name") else {
        return Ok(None);
    };
    Ok(Some(ListedName {
        category: Text::from_str(alloc, category)?,
        name: Text::from_str(alloc, name)?,
    }))
}

/// The number of a line's module, if it is a whole number that isn't negative. The absent key says 0.
fn module_at<J: JsonTree>(line: &J) -> Option<u64>
    ensures { result ≡ module_at (J.content line.now) }
{
    match line.get("module") {
        None => Some(0),
        Some(value) => value.as_u64(),
    }
}

/// The row that a line sets, if it can be read.
#[tactic(auto, unfolding(crate::specs::Claims::row_of))]
fn row_of<J: JsonTree>(alloc: Global, line: &J) -> Result<Option<SetRow>, AllocError>
    ensures { IfOk result (λ o. o ≡ row_of (J.content line.now)) }
{
    let Some(in_module) = module_at(line) else {
        return Ok(None);
    };
    let Some(setting) = setting_of(alloc, line)? else {
        return Ok(None);
    };
    let (attribute, name) = (setting.attribute, setting.entity);
    let category = attribute.category;
    Ok(Some(SetRow {
        in_module,
        entity: ListedName { category, name },
        attribute: attribute.id,
        datatype: attribute.datatype,
        issuer: attribute.issuer,
    }))
}

/// What a line says, if it says anything, and whether that stands from then on.
#[tactic(auto, unfolding(crate::specs::Claims::said_by))]
pub(crate) fn said_by<J: JsonTree>(
    alloc: Global,
    line: &J,
) -> Result<Option<(Claim, bool)>, AllocError>
    ensures { IfOk result (λ o. o ≡ said_by (J.content line.now)) }
{
    if let Some(name) = listed_by(alloc, line)? {
        return Ok(Some((Claim::Listed(name), true)));
    }
    if let Some(name) = dropped_by(alloc, line)? {
        return Ok(Some((Claim::Listed(name), false)));
    }
    if !is_setting(line) {
        return Ok(None);
    }
    match row_of(alloc, line)? {
        None => Ok(None),
        Some(row) => Ok(Some((Claim::Values(row), true))),
    }
}

/// What the text of a line says.
fn said_in(alloc: Global, line: &[u8]) -> Result<Option<(Claim, bool)>, AllocError>
    ensures { IfOk result (λ o. o ≡ option_and_then said_by (data_of line.now)) }
{
    let mut scratch = Scratch::new(alloc);
    match read_json(alloc, line, &mut scratch)? {
        None => Ok(None),
        Some(json) => said_by(alloc, &json),
    }
}

/// Notes a claim of a line of that number, which stands from then on or ends.
fn put(
    claims: &mut BTreeMap<Claim, usize>,
    number: usize,
    claim: Claim,
    stands: bool,
) -> Result<(), AllocError>
    ensures { OnOk result ((other : Claim)
        → claimed_in claims.new other
        ≡ standing_behind (claimed_in claims.old) number (Some (claim, stands)) other) }
{
    if stands {
        claims.insert(claim, number)?;
        return Ok(());
    }
    claims.remove(&claim);
    Ok(())
}

/// Notes what a line of that number says.
fn note(
    claims: &mut BTreeMap<Claim, usize>,
    number: usize,
    said: Option<(Claim, bool)>,
) -> Result<(), AllocError>
    ensures { OnOk result ((claim : Claim)
        → claimed_in claims.new claim ≡ standing_behind (claimed_in claims.old) number said claim) }
{
    match said {
        None => Ok(()),
        Some((claim, stands)) => put(claims, number, claim, stands),
    }
}

/// Notes what the text of a line of that number says.
pub(crate) fn note_line(
    alloc: Global,
    claims: &mut BTreeMap<Claim, usize>,
    number: usize,
    line: &[u8],
) -> Result<(), AllocError>
    ensures { OnOk result ((claim : Claim)
        → claimed_in claims.new claim ≡ behind (claimed_in claims.old) number line.now claim) }
{
    let said = said_in(alloc, line)?;
    note(claims, number, said)
}
