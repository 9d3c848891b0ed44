//! Replies beside those that a file of tests expects.

ghost use Rattle.std.specs.Prelude.{◌≡◌, ◌≢◌, true, IfErr, IfOk, OnOk, map};
ghost use Rattle.std.specs.Io.KnownBytes.{Appends};
ghost use Rattle.std.specs.List.{after_first, before_first};
ghost use Rattle.ent_wire.specs.Pieces.{Sends};
ghost use Rattle.ent_wire.specs.declared.fault.ServeFault.TheVariants.{Read};
ghost use Rattle.cli_replies.specs.Comparing.{are_sure, behind, comparison_word, difference, differences};
ghost use Rattle.cli_replies.specs.Comparing.{expected_word, is_as, is_newline, is_sure, is_wanting, meets, pass};
ghost use Rattle.cli_replies.specs.Comparing.{places_of, places_told, told_at, told_of_one, wanted};

use ent_wire::{ServeFault, send_all};
use itoa::Buffer;
use script_files::{Expected, ReplyComparison, SentLine};
use script_matching::{is_part, is_same, places};
use std::alloc::{AllocError, Global};
use std::io::Write;

/// What a refusal begins with.
const REFUSAL: &[u8] = b"{\"refused\":";

/// The refusal for want of memory.
const WANTING: &[u8] = b"{\"refused\":15}";

/// What is told to be expected of a line of whose reply nothing is said.
const NO_REFUSAL: &[u8] = b"no refusal";

/// The first reply, and those behind it.
///
/// Its contract leaves open: nothing but where in the replies the two parts lie.
pub fn split_reply(replies: &[u8]) -> (&[u8], &[u8])
    ensures first { result.0.now ≡ before_first is_newline replies.now }
    ensures behind { result.1.now ≡ after_first is_newline replies.now }
{
    for i in 0..replies.len() {
        if replies[i] == b'\n' {
            return (&replies[..i], &replies[i + 1..]);
        }
    }
    (replies, &[])
}

/// Whether a reply is what is expected.
fn is_as(alloc: Global, expected: &Expected, reply: &[u8]) -> Result<bool, AllocError>
    ensures { IfOk result (λ same. same ≡ is_as expected.now.comparison expected.now.text reply.now) }
{
    let text = expected.text.as_slice();
    match expected.comparison {
        ReplyComparison::Bytes => Ok(reply == text),
        ReplyComparison::Data => is_same(alloc, text, reply),
        ReplyComparison::Part => is_part(alloc, text, reply),
    }
}

/// Whether a reply is as a step expects it; where it says nothing of it, whether it isn't a refusal.
fn meets(alloc: Global, step: &SentLine, reply: &[u8]) -> Result<bool, AllocError>
    ensures { IfOk result (λ met. met ≡ meets step.now.expected reply.now) }
{
    match &step.expected {
        Some(expected) => is_as(alloc, expected, reply),
        None => Ok(!reply.starts_with(REFUSAL)),
    }
}

/// Whether a reply is the refusal for want of memory.
///
/// Its contract is an equation.
pub fn is_wanting(reply: &[u8]) -> bool
    ensures { result ≡ is_wanting reply.now }
{
    reply == WANTING
}

/// What is told to be expected in a step.
fn wanted(step: &SentLine) -> &[u8]
    ensures { result.now ≡ wanted step.now.expected }
{
    match &step.expected {
        Some(expected) => expected.text.as_slice(),
        None => NO_REFUSAL,
    }
}

/// The words before what is expected of a reply that is compared in this way.
fn comparison_word(comparison: ReplyComparison) -> &'static str
    ensures { result.now ≡ comparison_word comparison }
{
    match comparison {
        ReplyComparison::Bytes => ": expected ",
        ReplyComparison::Data => ": expected = ",
        ReplyComparison::Part => ": expected ~ ",
    }
}

/// The words before what a step expects.
fn expected_word(step: &SentLine) -> &'static str
    ensures { result.now ≡ expected_word step.now.expected }
{
    match &step.expected {
        Some(expected) => comparison_word(expected.comparison),
        None => ": expected ",
    }
}

/// Writes a line on the line of that number of the file: a word, and what is said behind it.
///
/// Its contract leaves open: how much a failing writer took.
pub fn tell<'v, W: Write>(
    name: &'v str,
    number: u64,
    word: &'v str,
    said: &'v [u8],
    writer: &mut W,
) -> Result<(), ServeFault>
    ensures { Sends (W.contents writer.old) (W.contents writer.new) (told_at name.now number word.now said.now) result }
{
    let mut buffer = Buffer::new();
    let name = name.as_bytes();
    let colon = ":".as_bytes();
    let number = buffer.format(number).as_bytes();
    let word = word.as_bytes();
    let end = "\n".as_bytes();
    send_all(writer, &[name, colon, number, word, said, end])
}

/// The places at which a reply isn't as a step expects, where they are compared as JSON.
fn places_of(alloc: Global, step: &SentLine, reply: &[u8]) -> Result<Vec<Vec<u8>>, AllocError>
    ensures { IfOk result (λ v. map (λ p. p.items) v.items ≡ places_of step.now.expected reply.now) }
{
    let Some(expected) = &step.expected else {
        return Ok(Vec::new(alloc));
    };
    let text = expected.text.as_slice();
    match expected.comparison {
        ReplyComparison::Bytes => Ok(Vec::new(alloc)),
        ReplyComparison::Data => places(alloc, true, text, reply),
        ReplyComparison::Part => places(alloc, false, text, reply),
    }
}

/// Writes a line on each of these places.
fn tell_places<W: Write>(
    name: &str,
    number: u64,
    places: &[Vec<u8>],
    writer: &mut W,
) -> Result<(), ServeFault>
    ensures told { OnOk result (Appends (W.contents writer.old) (W.contents writer.new)
        (places_told name.now number (map (λ p. p.items) places.now))) }
    ensures fault { IfErr result (λ e. e ≢ Read) }
{
    for place in places {
        tell(name, number, ": differs at ", place.as_slice(), writer)?;
    }
    Ok(())
}

/// Writes what a step of the file expected, what was replied, and where they differ.
fn tell_difference<W: Write>(
    alloc: Global,
    name: &str,
    step: &SentLine,
    reply: &[u8],
    writer: &mut W,
) -> Result<(), ServeFault>
    ensures told { OnOk result (Appends (W.contents writer.old) (W.contents writer.new)
        (difference name.now step.now reply.now)) }
    ensures fault { IfErr result (λ e. e ≢ Read) }
{
    let places = places_of(alloc, step, reply)?;
    tell(name, step.number, expected_word(step), wanted(step), writer)?;
    tell(name, step.number, ": replied ", reply, writer)?;
    tell_places(name, step.number, places.as_slice(), writer)
}

/// Writes the reply to a step if it isn't as the step expects, and says whether it is. Where it isn't for want of
/// memory, that is the fault, and nothing is written.
fn compare_one<W: Write>(
    alloc: Global,
    name: &str,
    step: &SentLine,
    reply: &[u8],
    writer: &mut W,
) -> Result<bool, ServeFault>
    ensures met { IfOk result (λ met. met ≡ meets step.now.expected reply.now) }
    ensures sure { OnOk result (is_sure step.now.expected reply.now ≡ true) }
    ensures told { OnOk result (Appends (W.contents writer.old) (W.contents writer.new)
        (told_of_one name.now step.now reply.now)) }
    ensures fault { IfErr result (λ e. e ≢ Read) }
{
    if meets(alloc, step, reply)? {
        return Ok(true);
    }
    if is_wanting(reply) {
        return Err(ServeFault::Memory);
    }
    tell_difference(alloc, name, step, reply, writer)?;
    Ok(false)
}

/// Writes each reply that isn't as its step expects, and says whether there is none, and what stands behind the
/// replies.
///
/// Its contract leaves open: when it answers want of memory, and how much a failing writer took.
pub fn compare<'r, W: Write>(
    alloc: Global,
    name: &str,
    steps: &[SentLine],
    replies: &'r [u8],
    writer: &mut W,
) -> Result<(bool, &'r [u8]), ServeFault>
    ensures passed { IfOk result (λ r. r.0 ≡ pass steps.now replies.now) }
    ensures behind { IfOk result (λ r. r.1.now ≡ behind steps.now replies.now) }
    ensures sure { OnOk result (are_sure steps.now replies.now ≡ true) }
    ensures told { OnOk result (Appends (W.contents writer.old) (W.contents writer.new)
        (differences name.now steps.now replies.now)) }
    ensures fault { IfErr result (λ e. e ≢ Read) }
{
    let mut passed = true;
    let mut rest = replies;
    for step in steps {
        let (reply, behind) = split_reply(rest);
        passed &= compare_one(alloc, name, step, reply, writer)?;
        rest = behind;
    }
    Ok((passed, rest))
}
