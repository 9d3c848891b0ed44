//! The lines of a file of sessions.

ghost use Rattle.std.specs.Prelude.{◌≡◌, IfOk};
ghost use Rattle.script_files.specs.Lines.{content_of, expected, headed, heading_of, lines_of, marked, modules_in};
ghost use Rattle.script_files.specs.Lines.{times_of, without_end};

use crate::cut::cut;
use crate::number::leading_number;
use crate::session::{Expected, ReplyComparison};
use ent_values::Items;
use std::alloc::{AllocError, Global};

/// What ends a line.
pub(crate) const NEWLINE: &[u8] = b"\n";

/// How many modules of each sort a service has, where its heading doesn't say it.
const MODULES: usize = 2;

/// What begins a session.
#[derive(Drop)]
pub(crate) struct Heading {
    pub(crate) name: Items<u8>,
    pub(crate) modules: usize,
}

/// What stands in a line.
#[derive(Drop)]
pub(crate) enum Content {
    /// Nothing.
    Empty,
    /// A comment.
    Comment,
    /// The heading of a session.
    Heading(Heading),
    /// A text that is sent.
    Sent(Items<u8>),
    /// A reply that is expected, as it is written.
    Reply(Expected),
    /// How many times what stands behind it comes.
    Times(u32),
    /// The heading of a session over a number of modules that there can't be.
    NoModules,
    /// Anything else.
    Other,
}

/// A line and its number, counted from 1.
#[derive(Drop)]
pub(crate) struct NumberedLine {
    pub(crate) number: u64,
    pub(crate) content: Content,
}

/// The number that two bytes, a space and a digit, write.
fn modules_in(end: &[u8]) -> Option<usize>
    ensures { result ≡ modules_in end.now }
{
    match end {
        [b' ', digit @ b'0'..=b'9'] => Some(usize::from(*digit - b'0')),
        _ => None,
    }
}

/// The heading of a session of that name, over that many modules of each sort.
fn headed(alloc: Global, name: &[u8], modules: usize) -> Result<Content, AllocError>
    ensures { IfOk result (λ c. c ≡ headed name.now modules) }
{
    let name = Items::from_vec(Vec::from_slice(alloc, name)?);
    Ok(Content::Heading(Heading { name, modules }))
}

/// The heading that a text is.
fn heading_of(alloc: Global, text: &[u8]) -> Result<Content, AllocError>
    ensures { IfOk result (λ c. c ≡ heading_of text.now) }
{
    if text.is_empty() {
        return Ok(Content::Other);
    }
    let at = text.len().saturating_sub(2);
    match modules_in(&text[at..]) {
        Some(modules @ 1..=4) => headed(alloc, &text[..at], modules),
        Some(_) => Ok(Content::NoModules),
        None => headed(alloc, text, MODULES),
    }
}

/// How many times a text says.
fn times_of(text: &[u8]) -> Content
    ensures { result ≡ times_of text.now }
{
    match leading_number(text) {
        Some((times, [])) => Content::Times(times),
        _ => Content::Other,
    }
}

/// A reply that is expected, which is compared in this way.
fn expected(alloc: Global, comparison: ReplyComparison, text: &[u8]) -> Result<Content, AllocError>
    ensures { IfOk result (λ c. c ≡ expected comparison text.now) }
{
    let text = Items::from_vec(Vec::from_slice(alloc, text)?);
    Ok(Content::Reply(Expected { comparison, text }))
}

/// What a line is that has this text behind a mark.
fn marked(alloc: Global, mark: u8, text: &[u8]) -> Result<Content, AllocError>
    ensures { IfOk result (λ c. c ≡ marked mark text.now) }
{
    match mark {
        b'#' => heading_of(alloc, text),
        b'>' => Ok(Content::Sent(Items::from_vec(Vec::from_slice(alloc, text)?))),
        b'<' => expected(alloc, ReplyComparison::Bytes, text),
        b'=' => expected(alloc, ReplyComparison::Data, text),
        b'~' => expected(alloc, ReplyComparison::Part, text),
        b'*' => Ok(times_of(text)),
        _ => Ok(Content::Other),
    }
}

/// What stands in the line of these bytes.
fn content_of(alloc: Global, line: &[u8]) -> Result<Content, AllocError>
    ensures { IfOk result (λ c. c ≡ content_of line.now) }
{
    match line {
        [] => Ok(Content::Empty),
        [mark] => marked(alloc, *mark, &[]),
        [mark, b' ', text @ ..] => marked(alloc, *mark, text),
        [b'-', b'-', ..] => Ok(Content::Comment),
        _ => Ok(Content::Other),
    }
}

/// A text without a byte at its end, if it ends with it.
pub(crate) fn without_end(byte: u8, text: &[u8]) -> &[u8]
    ensures { result.now ≡ without_end byte text.now }
{
    match text {
        [front @ .., last] if *last == byte => front,
        _ => text,
    }
}

/// The lines of a file of these bytes.
pub(crate) fn lines_of(alloc: Global, bytes: &[u8]) -> Result<Vec<NumberedLine>, AllocError>
    ensures { IfOk result (λ v. v.items ≡ lines_of bytes.now) }
{
    let parts = cut(alloc, NEWLINE, bytes)?;
    let mut lines = Vec::new(alloc);
    let mut number = 0;
    for part in parts.as_slice() {
        number += 1;
        let content = content_of(alloc, without_end(b'\r', part))?;
        lines.push(NumberedLine { number, content })?;
    }
    Ok(lines)
}
