//! The line and the column of a place in a text.

use crate::scan::Members;
use std::alloc::{AllocError, Global};

/// A place in a text as editors name it. Both numbers are from 1, and a column counts characters. A line ends with a line
/// feed, a carriage return, or both.
#[derive(Clone, Copy, Debug, PartialEq, Eq)]
pub struct Position {
    pub line: usize,
    pub column: usize,
}

/// The position behind these bytes of a text.
pub(crate) fn position_behind(before: &[u8]) -> Position {
    let mut line = 1usize;
    let mut column = 1usize;
    let mut is_behind_return = false;
    for byte in before {
        if *byte == b'\r' || *byte == b'\n' && !is_behind_return {
            line = line.saturating_add(1);
            column = 1;
        } else if *byte != b'\n' && begins_character(*byte) {
            column = column.saturating_add(1);
        }
        is_behind_return = *byte == b'\r';
    }
    Position { line, column }
}

/// Whether a character of UTF-8 begins with this byte.
fn begins_character(byte: u8) -> bool {
    byte & 0xC0 != 0x80
}

/// The position of what stands in the text from there to the end.
pub(crate) fn position_of(text: &[u8], from_there: &[u8]) -> Position {
    let passed = text.len().saturating_sub(from_there.len());
    position_behind(&text[..passed])
}

/// The line and the column in a JSON text at which the value begins that stands at a JSON pointer (RFC 6901). Where the
/// pointer leads nowhere, it is followed as far as it leads.
///
/// # Errors
///
/// `AllocError` if memory runs out.
///
/// Its contract leaves open: all of it: which line and column a place has is shown by the stored run `lint_told`.
pub fn line_and_column(alloc: Global, text: &[u8], pointer: &str) -> Result<Position, AllocError> {
    let there = text_at(alloc, text, pointer)?;
    Ok(position_of(text, there))
}

/// The text from what stands at the pointer on. Where the pointer leads nowhere, it is followed as far as it leads.
pub(crate) fn text_at<'a>(
    alloc: Global,
    text: &'a [u8],
    pointer: &str,
) -> Result<&'a [u8], AllocError> {
    let mut here = text.trim_ascii_start();
    for step in pointer.split('/').skip(1) {
        match inside(alloc, here, step)? {
            Some(inner) => here = inner,
            None => return Ok(here),
        }
    }
    Ok(here)
}

/// The text from the value on that this step of a pointer names, a number in a list and a key in an object.
pub(crate) fn inside<'a>(
    alloc: Global,
    text: &'a [u8],
    step: &str,
) -> Result<Option<&'a [u8]>, AllocError> {
    if !text.starts_with(b"[") {
        return at_key(alloc, text, step);
    }
    match step.parse::<usize>() {
        Ok(number) => Ok(in_list(text, number)),
        Err(_) => Ok(None),
    }
}

/// The text from the member of that number on, of the list with which the text begins.
fn in_list(text: &[u8], number: usize) -> Option<&[u8]> {
    let mut members = Members::of(text);
    for _ in 0..number {
        members.pass()?;
    }
    Some(members.pass()?.value)
}

/// The text from what stands at the key on, of the object with which the text begins. Of equal keys the last counts.
fn at_key<'a>(alloc: Global, text: &'a [u8], key: &str) -> Result<Option<&'a [u8]>, AllocError> {
    let mut members = Members::of(text);
    let mut found = None;
    for _ in 0..text.len() {
        let Some(member) = members.pass() else {
            return Ok(found);
        };
        if member.has_key(alloc, key)? {
            found = Some(member.value);
        }
    }
    Ok(found)
}
