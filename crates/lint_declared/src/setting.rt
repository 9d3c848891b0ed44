//! What lines set: values of an attribute, for a name.

ghost use Rattle.std.specs.Prelude.{◌≡◌, IfOk, codes, map, option_and_then, option_map};
ghost use Rattle.serde_json.specs.Find.{as_array, get};
ghost use Rattle.serde_json.specs.View.{items_of};
ghost use Rattle.lint_declared.specs.Settings.{category_of, is_setting, setting_of};
ghost use Rattle.lint_declared.specs.proofs_only.Settings.{setting_view};

use crate::always::{ACCESS_SUBJECT, ACTION, RESOURCE};
use crate::attribute::{DeclaredAttribute, owned};
use ent_json::{JsonTree, text_at, text_or_absent};
use ent_values::{DataType, Text};
use std::alloc::{AllocError, Global};

/// What a line sets. Its values stay where they are in the line's JSON.
#[derive(Drop)]
pub(crate) struct Setting<'a, J> {
    pub(crate) attribute: DeclaredAttribute,
    pub(crate) entity: Text,
    pub(crate) values: &'a [J],
}

/// The URI of the category that a word or the URI itself names.
fn category_of(word: &str) -> Option<&'static str>
    ensures { option_map (λ s. s.now) result ≡ category_of word.now }
{
    if word == "AccessSubject" || word == ACCESS_SUBJECT {
        Some(ACCESS_SUBJECT)
    } else if word == "Action" || word == ACTION {
        Some(ACTION)
    } else if word == "Resource" || word == RESOURCE {
        Some(RESOURCE)
    } else {
        None
    }
}

/// The list of values of a line.
pub(crate) fn values_at<J: JsonTree>(line: &J) -> Option<&[J]>
    ensures { option_map (λ s. items_of (map J.content s.now)) result
        ≡ option_and_then as_array (get (codes "values") (J.content line.now)) }
{
    line.get("values")?.as_array()
}

/// What a line sets, if it can be read.
#[tactic(auto, unfolding(crate::specs::Settings::setting_of))]
pub(crate) fn setting_of<'a, J: JsonTree>(
    alloc: Global,
    line: &'a J,
) -> Result<Option<Setting<'a, J>>, AllocError>
    ensures { IfOk result (λ o. option_map (setting_view J.content) o ≡ setting_of (J.content line.now)) }
{
    let Some(category) = text_at(line, "category").and_then(category_of) else {
        return Ok(None);
    };
    let Some(entity) = text_at(line, "entity") else {
        return Ok(None);
    };
    let Some(id) = text_at(line, "attribute") else {
        return Ok(None);
    };
    let Some(datatype) = text_at(line, "type").and_then(DataType::from_name) else {
        return Ok(None);
    };
    let Some(values) = values_at(line) else {
        return Ok(None);
    };
    if !text_or_absent(line, "issuer") {
        return Ok(None);
    }
    let issuer = owned(alloc, text_at(line, "issuer"))?;
    let attribute = DeclaredAttribute {
        category: Text::from_str(alloc, category)?,
        id: Text::from_str(alloc, id)?,
        datatype,
        issuer,
        values: None,
    };
    let entity = Text::from_str(alloc, entity)?;
    Ok(Some(Setting {
        attribute,
        entity,
        values,
    }))
}

/// Whether the command of a line is `attr.set`.
pub(crate) fn is_setting<J: JsonTree>(line: &J) -> bool
    ensures { result ≡ is_setting (J.content line.now) }
{
    match text_at(line, "do") {
        None => false,
        Some(word) => word == "attr.set",
    }
}
