//! Durations of years and months.

ghost use Rattle.std.specs.Prelude.{◌≡◌, true};
ghost use Rattle.ent_values.specs.Durations.{is_duration, months_of};

use std::marker::Model;

const MOST_MONTHS: u64 = 12_999_999_987;

/// A duration of years and months, as a number of months: at most 999,999,999 years and 999,999,999 months, forwards or
/// back.
#[derive(Clone, Copy, Debug, PartialEq, Eq, PartialOrd, Ord)]
pub struct YearMonth {
    months: i64,
}

impl Model for YearMonth {
    ghost use Rattle.std.specs.Prelude.{◌≡◌, ℤ, true};
    ghost use Rattle.ent_values.specs.Durations.{is_duration};

    ghost Value = { ℤ };

    ghost view = { λ d. d.months };

    ghost invariant = { λ d. is_duration d.months ≡ true };

    ghost inverse = { λ d. record { months = d } };
}

impl YearMonth {
    /// The duration of that many months, None if they are more than a duration can have.
    ///
    /// Its contract is an equation.
    pub fn new(months: i64) -> Option<YearMonth>
        ensures { result ≡ months_of months }
    {
        if months.unsigned_abs() <= MOST_MONTHS {
            Some(YearMonth { months })
        } else {
            None
        }
    }

    /// All the months, negative if the duration goes back.
    ///
    /// Its contract is an equation.
    pub fn months(self) -> i64
        ensures value { result ≡ self }
        ensures within { is_duration result ≡ true }
    {
        self.months
    }
}
