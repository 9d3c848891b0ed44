//! Numbers in texts.

ghost use Rattle.std.specs.Prelude.{◌≡◌, ◌≤◌, ◌++◌, OnOk, length, map, option_map};
ghost use Rattle.std.specs.Char.{is_ascii_digit};
ghost use Rattle.std.specs.List.{prefix_len};
ghost use Rattle.script_files.specs.Numbers.{leading_number, meant, number_at, numbered};

use ent_values::number_of_digits;
use itoa::Buffer;
use std::alloc::AllocError;

/// What stands for the number of a time.
pub(crate) const NUMBER: &[u8] = &[0xE2, 0x84, 0x96];

/// How many digits a text begins with.
fn digits_end(text: &[u8]) -> usize
    ensures value { result ≡ prefix_len is_ascii_digit text.now }
    ensures bound { result ≤ length text.now }
{
    for i in 0..text.len() {
        if !text[i].is_ascii_digit() {
            return i;
        }
    }
    text.len()
}

/// The number that the digits in front of a text write, if they are 1 to 9, and what stands behind them.
pub(crate) fn leading_number(text: &[u8]) -> Option<(u32, &[u8])>
    ensures { option_map (λ p. (p.0, p.1.now)) result ≡ leading_number text.now }
{
    let end = digits_end(text);
    let number = number_of_digits(&text[..end])?;
    Some((number, &text[end..]))
}

/// The number that a № with this text behind it stands for at a time, and what of the text is no part of it.
fn meant(time: u32, behind: &[u8]) -> (u64, &[u8])
    ensures number { result.0 ≡ (meant time behind.now).0 }
    ensures rest { result.1.now ≡ (meant time behind.now).1 }
{
    let Some((sign, text)) = behind.split_first() else {
        return (u64::from(time), behind);
    };
    match (*sign, leading_number(text)) {
        (b'+', Some((more, rest))) => (u64::from(time) + u64::from(more), rest),
        (b'%', Some((divisor, rest))) if divisor > 0 => (u64::from(time % divisor), rest),
        _ => (u64::from(time), behind),
    }
}

/// Writes the number that a № with this text behind it stands for at a time, and the rest of the text.
fn push_number(time: u32, behind: &[u8], out: &mut Vec<u8>) -> Result<(), AllocError>
    ensures { OnOk result (out.new.items ≡ out.old.items ++ number_at time behind.now) }
{
    let (number, rest) = meant(time, behind);
    let mut digits = Buffer::new();
    out.extend_from_slice(digits.format(number).as_bytes())?;
    out.extend_from_slice(rest)
}

/// Writes a text at a time, of which these are the parts between its №.
pub(crate) fn push_numbered(time: u32, parts: &[&[u8]], out: &mut Vec<u8>) -> Result<(), AllocError>
    ensures { OnOk result (out.new.items ≡ out.old.items ++ numbered time (map (λ p. p.now) parts.now)) }
{
    let Some((first, others)) = parts.split_first() else {
        return Ok(());
    };
    out.extend_from_slice(first)?;
    for behind in others {
        push_number(time, behind, out)?;
    }
    Ok(())
}
