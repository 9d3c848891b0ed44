//! The lines that a reply tells.

ghost use Rattle.std.specs.Prelude.{◌≡◌, ◌==◌, is_some, map, not, option_map};
ghost use Rattle.std.specs.List.{list_any};
ghost use Rattle.serde_json.specs.View.{items_of};
ghost use Rattle.ent_dump.specs.Reply.{line_in, lines_in, text_of, told_lines};

use ent_json::JsonTree;

/// Whether a text has no newline.
fn has_no_newline(text: &str) -> bool
    ensures { result ≡ not (list_any (λ b. b == 10) text.now) }
{
    !text.as_bytes().contains(&b'\n')
}

/// Whether this is a text without a newline.
#[tactic(auto, using(crate::proofs::Telling::is_line_if))]
fn is_line<J: JsonTree>(value: &J) -> bool
    ensures { result ≡ is_some (line_in (J.content value.now)) }
{
    match value.as_str() {
        None => false,
        Some(text) => has_no_newline(text),
    }
}

/// Whether each of these is a text without a newline.
fn are_lines<J: JsonTree>(values: &[J]) -> bool
    ensures { result ≡ is_some (lines_in (items_of (map J.content values.now))) }
{
    for value in values {
        if !is_line(value) {
            return false;
        }
    }
    true
}

/// The lines of an object that has the key `dump` alone, if they are texts without newlines.
pub(crate) fn told_lines<J: JsonTree>(value: &J) -> Option<&[J]>
    ensures { option_map (λ lines. map (λ j. text_of (J.content j)) lines.now) result
        ≡ told_lines (J.content value.now) }
{
    if !value.has_only(&["dump"]) {
        return None;
    }
    let lines = value.get("dump")?.as_array()?;
    if are_lines(lines) { Some(lines) } else { None }
}

/// The text that a value is, or the empty one.
pub(crate) fn text_of<J: JsonTree>(value: &J) -> &str
    ensures { result.now ≡ text_of (J.content value.now) }
{
    match value.as_str() {
        None => "",
        Some(text) => text,
    }
}
