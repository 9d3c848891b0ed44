//! Written texts of values.

ghost use Rattle.std.specs.Prelude.{◌≡◌, IfOk, string_bytes};
ghost use Rattle.ent_values.specs.ReadBack.{IsReadBack};
ghost use Rattle.ent_values.specs.Writing.{date_text, date_time_text, duration_text, sign_text, text_of, time_text};

use crate::date::Date;
use crate::date_time::DateTime;
use crate::duration::YearMonth;
use crate::text::Text;
use crate::time::Time;
use crate::value::{Value, value_is_real};
use std::alloc::{AllocError, Global};

impl Value {
    /// The written text of the value: an integer without `+` and leading zeros, a boolean as `true` or `false`, a date
    /// as `YYYY-MM-DD`, a time as `hh:mm:ss` and a dateTime as these two with `T` between them, all without `Z`, a
    /// duration as `P` with its years and the months left over, where a part of zero is left out and no months at all
    /// are `P0M`, with `-` in front of a negative one. A string and a URI are written as they are. The text reads as the
    /// value again, unless it is a duration of more than 999,999,999 whole years.
    ///
    /// Its contract is an equation but for memory.
    pub fn text(&self, alloc: Global) -> Result<Text, AllocError>
        ensures value { IfOk result (λ t. t ≡ text_of self.now) }
        ensures reads_back { IfOk result (λ t. IsReadBack self.now t) }
    {
        value_is_real(self);
        self.written(alloc)
    }

    #[tactic(auto, unfolding(crate::specs::Writing::text_of))]
    fn written(&self, alloc: Global) -> Result<Text, AllocError>
        ensures { IfOk result (λ t. t ≡ text_of self.now) }
    {
        match self {
            Value::Text(text) => text.copy(alloc),
            Value::Boolean(true) => Text::from_str(alloc, "true"),
            Value::Boolean(false) => Text::from_str(alloc, "false"),
            Value::Integer(integer) => Text::new(alloc, integer.to_string(alloc)?),
            Value::Date(date) => Text::new(alloc, written_date(alloc, *date)?),
            Value::AnyUri(uri) => uri.copy(alloc),
            Value::YearMonth(duration) => Text::new(alloc, written_duration(alloc, *duration)?),
            Value::Time(time) => Text::new(alloc, written_time(alloc, *time)?),
            Value::DateTime(moment) => Text::new(alloc, written_date_time(alloc, moment)?),
        }
    }
}

#[tactic(auto, unfolding(crate::specs::Writing::date_text))]
fn written_date(alloc: Global, date: Date) -> Result<String, AllocError>
    ensures { IfOk result (λ s. string_bytes s ≡ date_text date) }
{
    let (year, month, day) = (date.year(), date.month(), date.day());
    format!(in alloc; "{year:04}-{month:02}-{day:02}")
}

#[tactic(auto, unfolding(crate::specs::Writing::time_text))]
fn written_time(alloc: Global, time: Time) -> Result<String, AllocError>
    ensures { IfOk result (λ s. string_bytes s ≡ time_text time) }
{
    let (hour, minute, second) = (time.hour(), time.minute(), time.second());
    format!(in alloc; "{hour:02}:{minute:02}:{second:02}")
}

fn written_date_time(alloc: Global, moment: &DateTime) -> Result<String, AllocError>
    ensures { IfOk result (λ s. string_bytes s ≡ date_time_text moment.now) }
{
    let date = written_date(alloc, moment.date())?;
    let time = written_time(alloc, moment.time())?;
    format!(in alloc; "{date}T{time}")
}

fn written_duration(alloc: Global, duration: YearMonth) -> Result<String, AllocError>
    ensures { IfOk result (λ s. string_bytes s ≡ duration_text duration) }
{
    let sign = sign(duration.months());
    let months = duration.months().unsigned_abs();
    match (months / 12, months % 12) {
        (0, months) => format!(in alloc; "{sign}P{months}M"),
        (years, 0) => format!(in alloc; "{sign}P{years}Y"),
        (years, months) => format!(in alloc; "{sign}P{years}Y{months}M"),
    }
}

fn sign(months: i64) -> &'static str
    ensures { result.now ≡ sign_text months }
{
    if months < 0 { "-" } else { "" }
}
