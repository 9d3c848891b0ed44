//! What is told of texts that a stored document can't be, and of places in a text.

use lint_messages::{Position, explain, line_and_column, one_line};
use std::alloc::Global;
use std::test::Fail;

/// Whether that line is told of a text.
fn is_told(alloc: Global, text: &[u8], want: &str) -> Result<bool, Fail> {
    Ok(match explain(alloc, text)? {
        Some(line) => line.as_str() == want,
        None => false,
    })
}

/// Texts that aren't UTF-8, with the line that is told of each.
const ENCODINGS: &[(&[u8], &str)] = &[
    (
        b"{\"a\":\n \"\xC3\xA9\xFF\"}",
        "line 2, column 4: the bytes here aren't UTF-8",
    ),
    (
        b"\xFF\xFE{\x00}\x00",
        "line 1, column 1: the file is UTF-16 or UTF-32; save it as UTF-8",
    ),
    (
        b"\x00{\x00}",
        "line 1, column 1: the file is UTF-16 or UTF-32; save it as UTF-8",
    ),
    (
        b"\xEF\xBB\xBF",
        "line 1, column 1: the file begins with a byte order mark; save it as UTF-8 without one",
    ),
    (b" \r\n", "line 1, column 1: the file is empty"),
];

#[test]
fn other_encodings_are_named(rt: HostRuntime) -> Result<(), Fail> {
    for &(text, want) in ENCODINGS {
        assert!(rt; is_told(rt.alloc(), text, want)?, "{want}");
    }
    Ok(())
}

/// A text with values on three lines.
const LINES: &str =
    "{\"é\": [1,\r\n\t{\"\\u0061\\\"b\": \"]\", \"a\\\"b\": -2.5e1}, null], \"n\": {},\n\"last\": true}";

/// Pointers with the line and the column at which what stands there begins in the text.
const POSITIONS: &[(&str, usize, usize)] = &[
    ("", 1, 1),
    ("/é", 1, 7),
    ("/é/0", 1, 8),
    ("/é/1", 2, 2),
    ("/é/1/a\"b", 2, 29),
    ("/é/2", 2, 38),
    ("/n", 2, 50),
    ("/last", 3, 9),
    ("/é/7", 1, 7),
    ("/none/1", 1, 1),
];

#[test]
fn pointers_have_a_line_and_a_column(rt: HostRuntime) -> Result<(), Fail> {
    for &(pointer, line, column) in POSITIONS {
        let found = line_and_column(rt.alloc(), LINES.as_bytes(), pointer)?;
        assert_eq!(rt; found, Position { line, column }, "{pointer}");
    }
    Ok(())
}

#[test]
fn a_line_has_no_control_characters(rt: HostRuntime) -> Result<(), Fail> {
    let line = one_line(rt.alloc(), "a\tb\n\u{1b}[1m\u{7f}\u{85}\u{2028}\u{202e}é")?;
    assert_eq!(rt;
        line.as_str(),
        "a\\u0009b\\u000a\\u001b[1m\\u007f\\u0085\\u2028\\u202eé"
    );
    Ok(())
}
