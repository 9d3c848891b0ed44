//! What is known of the time.

ghost use Rattle.std.specs.Prelude.{◌≡◌};
ghost use Rattle.ent_request.specs.Environment.{date_in, date_time_in, of_day, of_moment, time_in};

use ent_values::{Date, DateTime, Time};

/// What is known of the time, which the attributes of the environment tell (section 10.2.5 and appendix B.7).
#[derive(Clone, Copy, Debug, PartialEq, Eq)]
pub enum Environment {
    /// Nothing.
    Empty,
    /// The date alone.
    Day(Date),
    /// The date and the time of day.
    Moment(DateTime),
}

impl Environment {
    /// That of a day, or of none.
    ///
    /// Its contract is an equation.
    pub fn of_day(day: Option<Date>) -> Environment
        ensures { result ≡ of_day day }
    {
        match day {
            None => Environment::Empty,
            Some(day) => Environment::Day(day),
        }
    }

    /// That of a moment, or of none.
    ///
    /// Its contract is an equation.
    pub fn of_moment(moment: Option<DateTime>) -> Environment
        ensures { result ≡ of_moment moment }
    {
        match moment {
            None => Environment::Empty,
            Some(moment) => Environment::Moment(moment),
        }
    }

    /// The date, if it is known.
    ///
    /// Its contract is an equation.
    pub fn date(self) -> Option<Date>
        ensures { result ≡ date_in self }
    {
        match self {
            Environment::Empty => None,
            Environment::Day(day) => Some(day),
            Environment::Moment(moment) => Some(moment.date()),
        }
    }

    /// The time of day, if it is known: of a moment alone.
    ///
    /// Its contract is an equation.
    pub fn time(self) -> Option<Time>
        ensures { result ≡ time_in self }
    {
        match self {
            Environment::Moment(moment) => Some(moment.time()),
            Environment::Empty | Environment::Day(_) => None,
        }
    }

    /// The date and time, if both are known: of a moment alone.
    ///
    /// Its contract is an equation.
    pub fn date_time(self) -> Option<DateTime>
        ensures { result ≡ date_time_in self }
    {
        match self {
            Environment::Moment(moment) => Some(moment),
            Environment::Empty | Environment::Day(_) => None,
        }
    }
}
