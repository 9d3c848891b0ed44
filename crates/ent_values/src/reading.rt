//! Values out of their lexical forms.

ghost use Rattle.std.specs.Prelude.{◌≡◌, ◌^◌, ◌≤◌, ◌<◌, ◌||◌, [], bytes_eq, codes, length, true};
ghost use Rattle.std.specs.Prelude.{Some, None, IfOk, IfErr, IfSome};
ghost use Rattle.ent_values.specs.Reading.{boolean_of, count_of, date_of, date_time_of, duration_of, integer_of};
ghost use Rattle.ent_values.specs.Reading.{months_part_of, period_of, time_of, value_of, years_part_of};
ghost use Rattle.ent_values.specs.declared.fault.ValueFault.TheVariants.{BadValue, Memory};
ghost use Rattle.ent_values.specs.Types.{is_textual};

use crate::datatype::DataType;
use crate::date::Date;
use crate::date_time::DateTime;
use crate::duration::YearMonth;
use crate::fault::ValueFault;
use crate::text::Text;
use crate::time::Time;
use crate::value::Value;
use std::alloc::Global;

// The most digits that a count of years or months may have.
const MOST_DIGITS: usize = 9;

impl Value {
    /// The value of a type that a text stands for (appendix A.2). A string and a URI are any text, a boolean is `true`,
    /// `false`, `1` or `0`, an integer has digits with a sign or none in front and is within signed 64 bits, a date
    /// is a day of the calendar as `YYYY-MM-DD` in the years 1 to 9999 with a `Z` behind it or none, a duration is `P`
    /// with `nY`, `nM` or `nYnM`, each n of 1 to 9 digits, with a `-` in front or none, a time is `hh:mm:ss` from
    /// `00:00:00` to `23:59:59` with a `Z` behind it or none, a dateTime is a date without `Z`, a `T` and a time.
    ///
    /// Any other text is a `BadValue`. Memory is asked for the text of a string or a URI alone, so no other type is
    /// refused.
    ///
    /// Its contract is an equation but for memory.
    #[tactic(auto, unfolding(crate::specs::Reading::value_of))]
    pub fn parse(alloc: Global, datatype: DataType, text: &str) -> Result<Value, ValueFault>
        ensures read { IfOk result (λ v. value_of datatype text.now ≡ Some v) }
        ensures bad { IfErr result (λ e. e ≡ BadValue → value_of datatype text.now ≡ None) }
        ensures memory { IfErr result (λ e. e ≡ Memory → is_textual datatype ≡ true) }
    {
        let value = match datatype {
            DataType::Text => Some(Value::Text(Text::from_str(alloc, text)?)),
            DataType::Boolean => boolean(text).map(Value::Boolean),
            DataType::Integer => integer(text).map(Value::Integer),
            DataType::Date => date(text.as_bytes()).map(Value::Date),
            DataType::AnyUri => Some(Value::AnyUri(Text::from_str(alloc, text)?)),
            DataType::YearMonth => duration(text.as_bytes()).map(Value::YearMonth),
            DataType::Time => time(text.as_bytes()).map(Value::Time),
            DataType::DateTime => date_time(text.as_bytes()).map(Value::DateTime),
        };
        value.ok_or(ValueFault::BadValue)
    }
}

#[tactic(auto, unfolding(crate::specs::Reading::boolean_of))]
fn boolean(text: &str) -> Option<bool>
    ensures { result ≡ boolean_of text.now }
{
    match text {
        "true" | "1" => Some(true),
        "false" | "0" => Some(false),
        _ => None,
    }
}

#[tactic(auto, unfolding(crate::specs::Reading::integer_of))]
fn integer(text: &str) -> Option<i64>
    ensures { result ≡ integer_of text.now }
{
    text.parse().ok()
}

/// The number that 1 to 9 digits write, and none of any other text.
///
/// Its contract is an equation.
#[tactic(auto, unfolding(crate::specs::Reading::count_of))]
pub fn number_of_digits(text: &[u8]) -> Option<u32>
    ensures value { result ≡ count_of text.now }
    ensures small { IfSome result (λ n. n < 10 ^ length text.now) }
    ensures short { IfSome result (λ _. length text.now ≤ 9) }
{
    if text.is_empty() || text.len() > MOST_DIGITS {
        return None;
    }
    let mut number = 0;
    for byte in text {
        if !byte.is_ascii_digit() {
            return None;
        }
        number = number * 10 + u32::from(byte - b'0');
    }
    Some(number)
}

fn date(text: &[u8]) -> Option<Date>
    ensures { result ≡ date_of text.now }
{
    if text.len() < 10 || text[4] != b'-' || text[7] != b'-' || !is_zone(&text[10..]) {
        return None;
    }
    let year = number_of_digits(&text[..4])?;
    let month = number_of_digits(&text[5..7])?;
    let day = number_of_digits(&text[8..10])?;
    Date::new(year as u16, month as u8, day as u8)
}

fn time(text: &[u8]) -> Option<Time>
    ensures { result ≡ time_of text.now }
{
    if text.len() < 8 || text[2] != b':' || text[5] != b':' || !is_zone(&text[8..]) {
        return None;
    }
    let hour = number_of_digits(&text[..2])?;
    let minute = number_of_digits(&text[3..5])?;
    let second = number_of_digits(&text[6..8])?;
    Time::new(hour as u8, minute as u8, second as u8)
}

fn date_time(text: &[u8]) -> Option<DateTime>
    ensures { result ≡ date_time_of text.now }
{
    if text.len() < 11 || text[10] != b'T' {
        return None;
    }
    let date = date(&text[..10])?;
    let time = time(&text[11..])?;
    Some(DateTime::new(date, time))
}

// Whether the text is what may stand behind a day or a time.
fn is_zone(text: &[u8]) -> bool
    ensures { result ≡ (bytes_eq text.now [] || bytes_eq text.now (codes "Z")) }
{
    text.is_empty() || text == b"Z".as_slice()
}

#[tactic(auto, unfolding(crate::specs::Reading::duration_of))]
fn duration(text: &[u8]) -> Option<YearMonth>
    ensures { result ≡ duration_of text.now }
{
    match text.strip_prefix(b"-") {
        Some(rest) => YearMonth::new(-(period(rest)? as i64)),
        None => YearMonth::new(period(text)? as i64),
    }
}

// The months of `P` and the parts behind it.
#[tactic(auto, unfolding(crate::specs::Reading::period_of))]
fn period(text: &[u8]) -> Option<u64>
    ensures value { result ≡ period_of text.now }
    ensures small { IfSome result (λ n. n ≤ 12999999987) }
{
    let parts = text.strip_prefix(b"P")?;
    match parts.iter().position(|byte| *byte == b'Y') {
        Some(place) => years_part(&parts[..place], &parts[place + 1..]),
        None => months_part(parts),
    }
}

// The months of a part `nY` and of what stands behind it.
#[tactic(auto, unfolding(crate::specs::Reading::years_part_of))]
fn years_part(years: &[u8], rest: &[u8]) -> Option<u64>
    ensures value { result ≡ years_part_of years.now rest.now }
    ensures small { IfSome result (λ n. n ≤ 12999999987) }
{
    let years = number_of_digits(years)?;
    let months = if rest.is_empty() {
        0
    } else {
        months_part(rest)?
    };
    Some(12 * u64::from(years) + months)
}

// The months of a part `nM`.
#[tactic(auto, unfolding(crate::specs::Reading::months_part_of))]
fn months_part(text: &[u8]) -> Option<u64>
    ensures value { result ≡ months_part_of text.now }
    ensures small { IfSome result (λ n. n ≤ 999999999) }
{
    number_of_digits(text.strip_suffix(b"M")?).map(u64::from)
}
