//! Dates with a time of day.

ghost use Rattle.std.specs.Prelude.{◌≡◌};

use crate::date::Date;
use crate::time::Time;

/// A date and a time of that day. DateTimes order by time.
#[derive(Clone, Copy, Debug, PartialEq, Eq, PartialOrd, Ord)]
pub struct DateTime {
    date: Date,
    time: Time,
}

impl DateTime {
    /// The dateTime of a date and a time.
    ///
    /// Its contract is an equation.
    pub fn new(date: Date, time: Time) -> DateTime
        ensures { result ≡ record { date = date; time = time } }
    {
        DateTime { date, time }
    }

    /// The date.
    ///
    /// Its contract is an equation.
    pub fn date(&self) -> Date
        ensures { result ≡ self.now.date }
    {
        self.date
    }

    /// The time of that date.
    ///
    /// Its contract is an equation.
    pub fn time(&self) -> Time
        ensures { result ≡ self.now.time }
    {
        self.time
    }
}
