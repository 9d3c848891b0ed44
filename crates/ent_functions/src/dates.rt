//! Sums of dates and durations.

ghost use Rattle.std.specs.Prelude.{◌≡◌, true, ℤ, pos, ◌+ℤ◌, neg_ℤ, min, Some, nat_le};
ghost use Rattle.std.specs.Prelude.{◌≤◌, ◌<◌, ◌-◌, ◌+◌, ◌*◌, ◌/◌, ◌%◌};
ghost use Rattle.ent_values.specs.Calendar.{days_of_month};
ghost use Rattle.ent_values.specs.Durations.{is_duration};
ghost use Rattle.ent_functions.specs.Dates.{date_in_month, day_in_month, month_number, months_later};

use crate::arg::{Arg, Fault};
use ent_values::{Date, Value};

/// The date so many months later, on the same day of the month or on the month's last day.
#[tactic(auto, using(crate::proofs::Months::beyond))]
pub(crate) fn months_later(date: Date, months: i64) -> Result<Arg, Fault>
    ensures { result ≡ months_later date months }
{
    match month_number(date).checked_add(months) {
        Some(number) => date_in_month(number, date.day()),
        None => Err(Fault::DateRange),
    }
}

/// The date so many months earlier, in the same way.
pub(crate) fn months_earlier(date: Date, months: i64) -> Result<Arg, Fault>
    requires { is_duration months ≡ true }
    ensures { result ≡ months_later date (neg_ℤ months) }
{
    months_later(date, negated(months))
}

// The months turned round. Those of a duration stay within 64 bits.
fn negated(months: i64) -> i64
    requires { is_duration months ≡ true }
    ensures { result ≡ neg_ℤ months }
{
    -months
}

// The months from the beginning of the year 0 to a date's month.
fn month_number(date: Date) -> i64
    ensures { result ≡ pos (month_number date) }
{
    12 * i64::from(date.year()) + (i64::from(date.month()) - 1)
}

// That day of the month with that number, or the month's last day.
fn date_in_month(number: i64, day: u8) -> Result<Arg, Fault>
    requires { (1 ≤ day) × (day ≤ 31) }
    ensures { result ≡ date_in_month number day }
{
    match u32::try_from(number) {
        Ok(number) => {
            if 12 <= number && number < 120000 {
                let (year, month) = ((number / 12) as u16, (number % 12 + 1) as u8);
                match clamped(year, month, day) {
                    Some(date) => Ok(Arg::One(Value::Date(date))),
                    None => unreachable!(),
                }
            } else {
                Err(Fault::DateRange)
            }
        }
        Err(_) => Err(Fault::DateRange),
    }
}

// That day of the month, or the month's last day.
fn clamped(year: u16, month: u8, day: u8) -> Option<Date>
    requires years { (1 ≤ year) × (year ≤ 9999) }
    requires months { (1 ≤ month) × (month ≤ 12) }
    requires days { (1 ≤ day) × (day ≤ 31) }
    ensures { result ≡ Some (record { year = year; month = month; day = min day (days_of_month year month) }) }
{
    let last = Date::new(year, month, 1)?.last_of_month();
    Date::new(year, month, day.min(last.day()))
}
