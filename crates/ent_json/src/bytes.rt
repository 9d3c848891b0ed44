//! The bytes of a text of JSON that is written.

ghost use Rattle.std.specs.Prelude.{◌≡◌, ◌∷◌, ◌++◌, ◌≤◌, [], IsUtf8, OnErr, OnOk, decimal, length, map, take};
ghost use Rattle.std.specs.Bool.{OnTrue};
ghost use Rattle.json.specs.Print.{IsPrintable, escape, token_text};
ghost use Rattle.json.specs.Reads.{token_of};
ghost use Rattle.json.specs.Run.{is_stop};
ghost use Rattle.json.specs.Token as token;
ghost use Rattle.ent_json.specs.Dotted.{dotted};
ghost use Rattle.ent_json.specs.proofs_only.Written.{comma_if, others_text};

use itoa::Buffer;
use json::{Token, Writer};
use std::alloc::AllocError;

/// Puts a text behind the bytes, and a comma before it if there is to be one; or nothing where memory runs out.
#[inline(always)]
pub(crate) fn append(bytes: &mut Vec<u8>, comma: bool, text: &[u8]) -> Result<(), AllocError>
    ensures ok { OnOk result (bytes.new.items ≡ bytes.old.items ++ (comma_if comma ++ text.now)) }
    ensures err { OnErr result (bytes.new.items ≡ bytes.old.items) }
{
    bytes.reserve(text.len() + 1)?;
    if comma {
        bytes.push(b',').unwrap();
    }
    bytes.extend_from_slice(text).unwrap();
    Ok(())
}

/// Whether the byte needs an escape.
#[inline(always)]
fn is_odd(byte: u8) -> bool
    ensures { result ≡ is_stop byte }
{
    byte == b'"' || byte == b'\\' || byte < 0x20
}

/// Whether no byte of the text needs an escape. It looks at all of them, so that the compiler takes many at a time.
#[inline]
fn is_plain(text: &[u8]) -> bool
    ensures { OnTrue result (escape text.now ≡ text.now) }
{
    let mut odd = false;
    for byte in text {
        odd |= is_odd(*byte);
    }
    !odd
}

/// Puts a text that needs no escape behind the bytes, between a quote and its end; or nothing where memory runs out.
#[inline(always)]
fn append_plain(bytes: &mut Vec<u8>, comma: bool, text: &[u8], end: &[u8]) -> Result<(), AllocError>
    requires { length end.now ≤ 2 }
    ensures ok { OnOk result (bytes.new.items ≡ bytes.old.items ++ (comma_if comma ++ 34 ∷ (text.now ++ end.now))) }
    ensures err { OnErr result (bytes.new.items ≡ bytes.old.items) }
{
    bytes.reserve(text.len() + end.len() + 2)?;
    if comma {
        bytes.push(b',').unwrap();
    }
    bytes.push(b'"').unwrap();
    bytes.extend_from_slice(text).unwrap();
    bytes.extend_from_slice(end).unwrap();
    Ok(())
}

/// Puts the text of a token behind the bytes, as the kit's writer writes it; or nothing where memory runs out.
#[cold]
#[inline(never)]
fn append_token(bytes: &mut Vec<u8>, comma: bool, token: Token<'_>) -> Result<(), AllocError>
    requires { IsPrintable (token_of token) }
    ensures ok { OnOk result (bytes.new.items
        ≡ bytes.old.items ++ (comma_if comma ++ token_text (token_of token.entry))) }
    ensures err { OnErr result (bytes.new.items ≡ bytes.old.items) }
{
    let mut writer = Writer::new(Vec::new(*bytes.allocator()));
    writer.token(token)?;
    let text = writer.into_inner();
    append(bytes, comma, text.as_slice())
}

/// Puts the key of a member behind the bytes, or nothing where memory runs out.
#[inline(always)]
pub(crate) fn append_key(bytes: &mut Vec<u8>, comma: bool, name: &str) -> Result<(), AllocError>
    ensures utf8 { IsUtf8 name.now }
    ensures ok { OnOk result (bytes.new.items
        ≡ bytes.old.items ++ (comma_if comma ++ token_text (token.key name.now))) }
    ensures err { OnErr result (bytes.new.items ≡ bytes.old.items) }
{
    if is_plain(name.as_bytes()) {
        append_plain(bytes, comma, name.as_bytes(), b"\":")
    } else {
        append_token(bytes, comma, Token::Key(name))
    }
}

/// Puts a text in quotes behind the bytes, or nothing where memory runs out.
#[inline(always)]
pub(crate) fn append_string(bytes: &mut Vec<u8>, comma: bool, text: &str) -> Result<(), AllocError>
    ensures utf8 { IsUtf8 text.now }
    ensures ok { OnOk result (bytes.new.items
        ≡ bytes.old.items ++ (comma_if comma ++ token_text (token.string text.now))) }
    ensures err { OnErr result (bytes.new.items ≡ bytes.old.items) }
{
    if is_plain(text.as_bytes()) {
        append_plain(bytes, comma, text.as_bytes(), b"\"")
    } else {
        append_token(bytes, comma, Token::String(text))
    }
}

/// Puts a number behind the bytes.
fn push_number(bytes: &mut Vec<u8>, number: u32) -> Result<(), AllocError>
    ensures ok { OnOk result (bytes.new.items ≡ bytes.old.items ++ decimal number) }
    ensures err { OnErr result (bytes.new.items ≡ bytes.old.items) }
{
    let mut buffer = Buffer::new();
    append(bytes, false, buffer.format(number).as_bytes())
}

/// Puts numbers behind the bytes with a point before each, or a front of that.
fn push_others(bytes: &mut Vec<u8>, numbers: &[u32]) -> Result<(), AllocError>
    ensures ok { OnOk result (bytes.new.items ≡ bytes.old.items ++ others_text numbers.now) }
    ensures front { take (length bytes.old.items) bytes.new.items ≡ bytes.old.items }
{
    for number in numbers {
        append(bytes, false, b".")?;
        push_number(bytes, *number)?;
    }
    Ok(())
}

/// Puts numbers behind the bytes with a point between each two, or a front of that.
fn push_numbers(bytes: &mut Vec<u8>, numbers: &[u32]) -> Result<(), AllocError>
    ensures ok { OnOk result (bytes.new.items ≡ bytes.old.items ++ dotted numbers.now) }
    ensures front { take (length bytes.old.items) bytes.new.items ≡ bytes.old.items }
{
    match numbers.split_first() {
        None => Ok(()),
        Some((first, others)) => {
            push_number(bytes, *first)?;
            push_others(bytes, others)
        }
    }
}

/// Puts numbers in quotes behind the bytes with a point between each two, or a front of that.
fn push_dotted(bytes: &mut Vec<u8>, comma: bool, numbers: &[u32]) -> Result<(), AllocError>
    ensures ok { OnOk result (bytes.new.items
        ≡ bytes.old.items ++ (comma_if comma ++ 34 ∷ (dotted numbers.now ++ 34 ∷ []))) }
    ensures front { take (length bytes.old.items) bytes.new.items ≡ bytes.old.items }
{
    append(bytes, comma, b"\"")?;
    push_numbers(bytes, numbers)?;
    append(bytes, false, b"\"")
}

/// Puts numbers in quotes behind the bytes with a point between each two, or nothing where memory runs out.
pub(crate) fn append_dotted(
    bytes: &mut Vec<u8>,
    comma: bool,
    numbers: &[u32],
) -> Result<(), AllocError>
    ensures utf8 { IsUtf8 (dotted numbers.now) }
    ensures ok { OnOk result (bytes.new.items
        ≡ bytes.old.items ++ (comma_if comma ++ token_text (token.string (dotted numbers.now)))) }
    ensures err { OnErr result (bytes.new.items ≡ bytes.old.items) }
{
    let before = bytes.len();
    let done = push_dotted(bytes, comma, numbers);
    if done.is_err() {
        bytes.truncate(before);
    }
    done
}
