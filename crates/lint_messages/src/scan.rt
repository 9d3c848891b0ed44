//! Where the parts of a JSON text stand in it. Of a text that is no JSON any place may be given.

ghost use Rattle.std.specs.Prelude.{◌≤◌, length};

use serde_json::Value;
use std::alloc::{AllocError, Global};

/// What is known of the bytes of a value that were passed.
#[derive(Drop)]
struct ByteScan {
    /// How many objects and lists are open.
    depth: usize,
    /// Whether a text is open.
    in_text: bool,
    /// Whether a backslash in a text stands before the next byte.
    escaped: bool,
}

impl ByteScan {
    fn start() -> ByteScan {
        ByteScan {
            depth: 0,
            in_text: false,
            escaped: false,
        }
    }

    /// Whether the value ends before this byte.
    fn ends_before(&self, byte: u8) -> bool {
        self.depth == 0 && !self.in_text && is_mark(byte)
    }

    /// Passes a byte.
    fn pass(&mut self, byte: u8) {
        if self.in_text {
            self.pass_in_text(byte);
            return;
        }
        match byte {
            b'"' => self.in_text = true,
            b'[' | b'{' => self.depth = self.depth.saturating_add(1),
            b']' | b'}' => self.depth = self.depth.saturating_sub(1),
            _ => {}
        }
    }

    /// Passes a byte of a text.
    fn pass_in_text(&mut self, byte: u8) {
        if self.escaped {
            self.escaped = false;
            return;
        }
        match byte {
            b'\\' => self.escaped = true,
            b'"' => self.in_text = false,
            _ => {}
        }
    }
}

/// Whether the byte stands between values: white space, a comma, a colon, or the end of a list or an object.
fn is_mark(byte: u8) -> bool {
    matches!(
        byte,
        b',' | b':' | b']' | b'}' | b' ' | b'\t' | b'\n' | b'\r'
    )
}

/// How many bytes the value has with which the text begins.
fn value_length(text: &[u8]) -> usize
    ensures { result ≤ length text.now }
{
    let mut walk = ByteScan::start();
    for (n, byte) in text.iter().enumerate() {
        if walk.ends_before(*byte) {
            return n;
        }
        walk.pass(*byte);
    }
    text.len()
}

/// The value with which the text begins, as it is written.
pub(crate) fn first_value(text: &[u8]) -> &[u8] {
    &text[..value_length(text)]
}

/// The text behind the value with which it begins.
fn after_value(text: &[u8]) -> &[u8] {
    &text[value_length(text)..]
}

/// How many objects and lists may be open in JSON that is read.
pub(crate) const MOST_OPEN: usize = 127;

/// Behind how many bytes of a text more objects and lists are open than may be, if there are.
pub(crate) fn too_deep_at(text: &[u8]) -> Option<usize> {
    let mut walk = ByteScan::start();
    for (n, byte) in text.iter().enumerate() {
        walk.pass(*byte);
        if walk.depth > MOST_OPEN {
            return Some(n);
        }
    }
    None
}

/// The text that a JSON text writes, nothing where it is none.
pub(crate) fn decoded(alloc: Global, written: &[u8]) -> Result<Option<String>, AllocError> {
    let Ok(written) = str::from_utf8(written) else {
        return Ok(None);
    };
    match Value::from_str(alloc, written) {
        Ok(Value::String(text)) => Ok(Some(text)),
        Ok(_) => Ok(None),
        Err(fault) => {
            if fault.is_memory() {
                Err(AllocError)
            } else {
                Ok(None)
            }
        }
    }
}

/// A member of an object or of a list.
#[derive(Clone, Copy)]
pub(crate) struct Member<'a> {
    /// The text from its key on; in a list from its value on.
    pub(crate) key: &'a [u8],
    /// The text from its value on.
    pub(crate) value: &'a [u8],
}

impl Member<'_> {
    /// The key of a member of an object.
    pub(crate) fn name(self, alloc: Global) -> Result<Option<String>, AllocError> {
        decoded(alloc, first_value(self.key))
    }

    /// Whether a member of an object has that key.
    pub(crate) fn has_key(self, alloc: Global, key: &str) -> Result<bool, AllocError> {
        let written = first_value(self.key);
        if !written.contains(&b'\\') {
            return Ok(is_between_quotes(written, key.as_bytes()));
        }
        Ok(match self.name(alloc)? {
            Some(name) => name.as_str() == key,
            None => false,
        })
    }
}

/// Whether it is the text between quotes.
fn is_between_quotes(written: &[u8], text: &[u8]) -> bool {
    match written.strip_prefix(b"\"") {
        Some(rest) => rest.strip_suffix(b"\"") == Some(text),
        None => false,
    }
}

/// The members of an object or of a list that aren't passed yet.
#[derive(Drop)]
pub(crate) struct Members<'a> {
    rest: &'a [u8],
    /// Whether they have keys.
    have_keys: bool,
}

impl<'a> Members<'a> {
    /// Those of the object or the list with which the text begins; none where it begins with neither.
    pub(crate) fn of(text: &'a [u8]) -> Members<'a> {
        if let Some(rest) = text.strip_prefix(b"{") {
            return Members {
                rest,
                have_keys: true,
            };
        }
        Members {
            rest: text.strip_prefix(b"[").unwrap_or(&[]),
            have_keys: false,
        }
    }

    /// Passes the next member.
    pub(crate) fn pass(&mut self) -> Option<Member<'a>> {
        let key = behind(self.rest, b",");
        match key.first() {
            None | Some(b']') | Some(b'}') => return None,
            Some(_) => {}
        }
        let value = if self.have_keys {
            behind(after_value(key), b":")
        } else {
            key
        };
        self.rest = after_value(value);
        Some(Member { key, value })
    }
}

/// The text behind white space, that mark if it is there, and white space again.
fn behind<'a>(text: &'a [u8], mark: &[u8]) -> &'a [u8] {
    let text = text.trim_ascii_start();
    text.strip_prefix(mark).unwrap_or(text).trim_ascii_start()
}
