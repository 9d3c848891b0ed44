//! Keys that stand twice in an object of a JSON text, of which the last counts.

use crate::position::position_behind;
use crate::words::quoted;
use std::alloc::{AllocError, Global};
use std::collections::BTreeMap;

/// The most of them that are told.
const MOST_TOLD: usize = 16;

/// A text between its quotes.
#[derive(Clone, Copy)]
struct WrittenText<'a> {
    text: &'a str,
    /// Behind how many bytes it begins, its quote among them.
    behind: usize,
}

/// An object or a list that is open.
#[derive(Drop)]
struct Open<'a> {
    /// Behind how many bytes the keys stood that were passed.
    keys: BTreeMap<&'a str, usize>,
    /// The key of the member that is passed.
    key: &'a str,
    /// How many members of a list were passed.
    number: usize,
    is_list: bool,
}

/// A key that stands again.
#[derive(Drop)]
struct Again<'a> {
    /// The JSON pointer of its object.
    pointer: String,
    key: WrittenText<'a>,
    /// Behind how many bytes it stood before.
    before: usize,
}

/// What is known of the bytes of a text that were passed.
#[derive(Drop)]
struct KeyScan<'a> {
    text: &'a [u8],
    open: Vec<Open<'a>>,
    found: Vec<Again<'a>>,
    /// Where the text began that is open or was last, and whether one is.
    begin: usize,
    is_in_text: bool,
    is_escaped: bool,
    /// The text that was passed last.
    last: WrittenText<'a>,
}

impl<'a> KeyScan<'a> {
    /// The JSON pointer of what was opened last. A key is taken as it is written.
    fn pointer(&self, alloc: Global) -> Result<String, AllocError> {
        let mut pointer = String::new(alloc);
        let around = self.open.len().saturating_sub(1);
        for open in self.open.iter().take(around) {
            pointer.push('/')?;
            if open.is_list {
                let number = open.number;
                let step = format!(in alloc; "{number}")?;
                pointer.push_str(step.as_str())?;
            } else {
                pointer.push_str(open.key)?;
            }
        }
        Ok(pointer)
    }

    /// Opens an object or a list.
    fn open(&mut self, alloc: Global, is_list: bool) -> Result<(), AllocError> {
        self.open.push(Open {
            keys: BTreeMap::new(alloc),
            key: "",
            number: 0,
            is_list,
        })?;
        Ok(())
    }

    /// Takes the last text for a key of what was opened last.
    fn take_key(&mut self, alloc: Global) -> Result<(), AllocError> {
        let key = self.last;
        let Some(open) = self.open.last_mut() else {
            return Ok(());
        };
        open.key = key.text;
        let Some(before) = open.keys.insert(key.text, key.behind)? else {
            return Ok(());
        };
        let pointer = self.pointer(alloc)?;
        self.found.push(Again {
            pointer,
            key,
            before,
        })?;
        Ok(())
    }

    /// Passes a comma.
    fn count(&mut self) {
        if let Some(open) = self.open.last_mut() {
            open.number = open.number.saturating_add(1);
        }
    }

    /// Begins a text.
    fn begin_text(&mut self, number: usize) {
        self.is_in_text = true;
        self.begin = number;
    }

    /// Passes a byte of a text.
    fn pass_in_text(&mut self, byte: u8, number: usize) {
        if self.is_escaped {
            self.is_escaped = false;
            return;
        }
        match byte {
            b'\\' => self.is_escaped = true,
            b'"' => {
                self.is_in_text = false;
                self.last = WrittenText {
                    text: text_between(self.text, self.begin.saturating_add(1), number),
                    behind: self.begin,
                };
            }
            _ => {}
        }
    }

    /// Passes a byte that stands behind that many.
    fn pass(&mut self, alloc: Global, byte: u8, number: usize) -> Result<(), AllocError> {
        if self.is_in_text {
            self.pass_in_text(byte, number);
            return Ok(());
        }
        match byte {
            b'"' => self.begin_text(number),
            b'{' => self.open(alloc, false)?,
            b'[' => self.open(alloc, true)?,
            b'}' | b']' => {
                self.open.pop();
            }
            b':' => self.take_key(alloc)?,
            b',' => self.count(),
            _ => {}
        }
        Ok(())
    }
}

/// The text from one place to another.
fn text_between(text: &[u8], begin: usize, end: usize) -> &str {
    match text.get(begin..end) {
        Some(bytes) => str::from_utf8(bytes).unwrap_or(""),
        None => "",
    }
}

/// The keys that stand again in an object, as far as so many are told.
fn keys_again(alloc: Global, text: &[u8]) -> Result<Vec<Again<'_>>, AllocError> {
    let mut walk = KeyScan {
        text,
        open: Vec::new(alloc),
        found: Vec::new(alloc),
        begin: 0,
        is_in_text: false,
        is_escaped: false,
        last: WrittenText {
            text: "",
            behind: 0,
        },
    };
    for (number, byte) in text.iter().enumerate() {
        walk.pass(alloc, *byte, number)?;
        if walk.found.len() >= MOST_TOLD {
            return Ok(walk.found);
        }
    }
    Ok(walk.found)
}

/// What is told of a key that stands again.
fn sentence_of(alloc: Global, text: &[u8], again: &Again<'_>) -> Result<String, AllocError> {
    let now = position_behind(text.get(..again.key.behind).unwrap_or(text));
    let before = position_behind(text.get(..again.before).unwrap_or(text));
    let key = quoted(alloc, again.key.text)?;
    let (line, column) = (now.line, now.column);
    let (first_line, first_column) = (before.line, before.column);
    format!(in alloc;
        "line {line}, column {column}: {key} stands here again, and not what stands at line {first_line}, column {first_column} counts"
    )
}

/// Puts what is told of keys that stand again in an object of a JSON text last: the JSON pointer of the object, and what
/// is told of the key. Keys are compared as they are written.
pub(crate) fn note_again(
    alloc: Global,
    text: &[u8],
    told: &mut Vec<(String, String)>,
) -> Result<(), AllocError> {
    for again in &keys_again(alloc, text)? {
        let sentence = sentence_of(alloc, text, again)?;
        let pointer = String::from_str(alloc, again.pointer.as_str())?;
        told.push((pointer, sentence))?;
    }
    Ok(())
}
