//! What is told of where a rule stands, and of statuses.

ghost use Rattle.std.specs.Prelude.{◌≡◌, ◌++◌, OnOk, map};
ghost use Rattle.ent_json.specs.Text.{tokens_of};
ghost use Rattle.ent_json.specs.proofs_only.Text.{items_tokens_of};
ghost use Rattle.ent_telling.specs.Paths.{key_data, path_data, rule_data, status_text};

use ent_eval::Status;
use ent_json::JsonText;
use ent_policy::DocKey;
use ent_values::Text;
use std::alloc::AllocError;

/// The word of a status: the last part of its identifier (appendix B.8).
///
/// Its contract is an equation.
pub fn status_text(status: Status) -> &'static str
    ensures { result.now ≡ status_text status }
{
    match status {
        Status::Okay => "ok",
        Status::MissingAttribute => "missing-attribute",
        Status::ProcessingError => "processing-error",
    }
}

/// Writes a document on a path.
fn write_key(out: &mut JsonText, key: &DocKey) -> Result<(), AllocError>
    ensures { OnOk result (out.new ≡ out.old ++ tokens_of (key_data key.now)) }
{
    out.begin_array()?;
    out.string(key.kind.word())?;
    out.string(key.id.as_str())?;
    out.dotted(key.version.numbers())?;
    out.end_array()
}

/// Writes the documents on a path, to the end of their list.
fn write_keys(out: &mut JsonText, keys: &[DocKey]) -> Result<(), AllocError>
    ensures { OnOk result (out.new ≡ out.old ++ items_tokens_of (map key_data keys.now)) }
{
    for key in keys {
        write_key(out, key)?;
    }
    out.end_array()
}

/// Writes a path: of each document on it an array of its kind, its id and its version.
///
/// # Errors
///
/// `AllocError` if memory runs out; a front of the path may have been written.
///
/// Its contract is an equation but for memory.
pub fn write_path(out: &mut JsonText, keys: &[DocKey]) -> Result<(), AllocError>
    ensures { OnOk result (out.new ≡ out.old ++ tokens_of (path_data keys.now)) }
{
    out.begin_array()?;
    write_keys(out, keys)
}

/// Writes a rule's id, or null.
///
/// # Errors
///
/// `AllocError` if memory runs out; a front of the id may have been written.
///
/// Its contract is an equation but for memory.
pub fn write_rule(out: &mut JsonText, rule: &Option<Text>) -> Result<(), AllocError>
    ensures { OnOk result (out.new ≡ out.old ++ tokens_of (rule_data rule.now)) }
{
    match rule {
        None => out.null(),
        Some(id) => out.string(id.as_str()),
    }
}
