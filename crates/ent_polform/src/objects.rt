//! Copies of the texts at the keys of a JSON object.

ghost use Rattle.std.specs.Prelude.{◌≡◌, IfErr, IfOk, IsTrue, is_some};
ghost use Rattle.serde_json.specs.Find.{get};
ghost use Rattle.ent_policy.specs.Gives.{Gives};
ghost use Rattle.ent_policy.specs.declared.fault.CheckFault.TheVariants.{Memory};
ghost use Rattle.ent_polform.specs.Reading.{maybe, part, text_of};
ghost use Rattle.ent_json.specs.Objects.{text_at};

use ent_json::{JsonTree, text_at};
use ent_policy::{CheckFault, DocFault};
use ent_values::Text;
use std::alloc::{AllocError, Global};

/// A copy of the text that has to stand at the key.
pub(crate) fn required<J: JsonTree>(
    alloc: Global,
    object: &J,
    key: &str,
) -> Result<Text, CheckFault>
    ensures text { Gives result (part (text_at key.now (J.content object.now))) }
    ensures memory { IfErr result (λ e. e ≡ Memory → IsTrue (is_some (text_at key.now (J.content object.now)))) }
{
    let text = text_at(object, key).ok_or(DocFault::Form)?;
    Ok(Text::from_str(alloc, text)?)
}

/// A copy of the text at the key, where a text stands there.
pub(crate) fn copy_at<J: JsonTree>(
    alloc: Global,
    object: &J,
    key: &str,
) -> Result<Option<Text>, AllocError>
    ensures { IfOk result (λ t. t ≡ text_at key.now (J.content object.now)) }
{
    match text_at(object, key) {
        None => Ok(None),
        Some(text) => Ok(Some(Text::from_str(alloc, text)?)),
    }
}

/// A copy of the text at the key, where it is there.
pub(crate) fn optional<J: JsonTree>(
    alloc: Global,
    object: &J,
    key: &str,
) -> Result<Option<Text>, CheckFault>
    ensures { Gives result (maybe text_of (get key.now (J.content object.now))) }
{
    match object.get(key) {
        None => Ok(None),
        Some(value) => {
            let text = value.as_str().ok_or(DocFault::Form)?;
            Ok(Some(Text::from_str(alloc, text)?))
        }
    }
}
