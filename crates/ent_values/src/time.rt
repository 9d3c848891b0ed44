//! Times of day.

ghost use Rattle.std.specs.Prelude.{◌≡◌, true};
ghost use Rattle.std.specs.Cmp.{partial_order_from_own_ties};
ghost use Rattle.std.specs.Cmp.Rules.{comparing};
ghost use Rattle.std.specs.Ordering.{as_partial_cmp, eq_by_cmp};
ghost use Rattle.std.proofs.Common.{rules};
ghost use Rattle.ent_values.specs.Calendar.{is_time, time_of_day};

use std::cmp::Ordering;
use std::marker::Model;

/// A time of day in whole seconds, from 00:00:00 to 23:59:59. Times order as they come in a day.
#[derive(Clone, Copy, Debug)]
pub struct Time {
    civil: jiff::civil::Time,
}

impl Model for Time {
    ghost use Rattle.ent_values.specs.Calendar.{TimeOfDay};
    ghost use Rattle.ent_values.specs.Clock.{IsWhole, time_of_clock};
    ghost use Rattle.ent_values.specs.proofs_only.Clock.{clock_back, clock_of};

    ghost Value = { TimeOfDay };

    ghost view = { λ t. time_of_clock t.civil };

    ghost invariant = { λ t. IsWhole t.civil };

    ghost inverse = { λ t. record { civil = clock_of t } };

    ghost inverse_ok = { λ a h. λ i. record { civil = clock_back a.civil h i } };
}

impl Time {
    /// The time of an hour, a minute and a second. None if no clock shows it: the hour is above 23, or the minute or
    /// the second above 59.
    ///
    /// Its contract is an equation.
    pub fn new(hour: u8, minute: u8, second: u8) -> Option<Time>
        ensures { result ≡ time_of_day hour minute second }
    {
        let civil = jiff::civil::Time::new(
            i8::try_from(hour).ok()?,
            i8::try_from(minute).ok()?,
            i8::try_from(second).ok()?,
            0,
        )
        .ok()?;
        Some(Time { civil })
    }

    /// The hour, from 0 to 23.
    ///
    /// Its contract is an equation.
    pub fn hour(self) -> u8
        ensures value { result ≡ self.hour }
        ensures real { is_time self.hour self.minute self.second ≡ true }
    {
        self.civil.hour().unsigned_abs()
    }

    /// The minute of the hour, from 0 to 59.
    ///
    /// Its contract is an equation.
    pub fn minute(self) -> u8
        ensures value { result ≡ self.minute }
        ensures real { is_time self.hour self.minute self.second ≡ true }
    {
        self.civil.minute().unsigned_abs()
    }

    /// The second of the minute, from 0 to 59.
    ///
    /// Its contract is an equation.
    pub fn second(self) -> u8
        ensures value { result ≡ self.second }
        ensures real { is_time self.hour self.minute self.second ≡ true }
    {
        self.civil.second().unsigned_abs()
    }
}

impl PartialEq for Time {
    ghost use Rattle.ent_values.specs.Calendar.{time_order};

    ghost eq = { eq_by_cmp time_order };

    ghost laws = { Prim.search (comparing, rules) };

    fn eq(&self, other: &Time) -> bool {
        self.civil == other.civil
    }
}

impl Eq for Time {
    ghost laws = { Prim.search (comparing, rules) };
}

impl PartialOrd for Time {
    ghost use Rattle.ent_values.specs.Calendar.{time_order};

    ghost partial_cmp = { as_partial_cmp time_order };

    ghost laws = { partial_order_from_own_ties (Prim.search (comparing, rules))
        (Prim.search (comparing, rules)) };

    fn partial_cmp(&self, other: &Time) -> Option<Ordering> {
        Some(self.cmp(other))
    }
}

impl Ord for Time {
    ghost use Rattle.ent_values.specs.Calendar.{time_order};

    ghost cmp = { time_order };

    ghost total = { Prim.search (comparing, rules) };

    ghost matches_partial_cmp = { Prim.search (comparing, rules) };

    ghost matches_eq = { Prim.search (comparing, rules) };

    fn cmp(&self, other: &Time) -> Ordering {
        self.civil.cmp(&other.civil)
    }
}
