//! Dates.

ghost use Rattle.std.specs.Prelude.{◌≡◌, true};
ghost use Rattle.std.specs.Cmp.{partial_order_from_own_ties};
ghost use Rattle.std.specs.Cmp.Rules.{comparing};
ghost use Rattle.std.specs.Ordering.{as_partial_cmp, eq_by_cmp};
ghost use Rattle.std.proofs.Common.{rules};
ghost use Rattle.ent_values.specs.Calendar.{day_of, days_of_month, is_date};

use std::cmp::Ordering;
use std::marker::Model;

/// A day of the calendar in the years 1 to 9999. Dates order by time.
#[derive(Clone, Copy, Debug)]
pub struct Date {
    civil: jiff::civil::Date,
}

impl Model for Date {
    ghost use Rattle.ent_values.specs.Calendar.{Day};
    ghost use Rattle.ent_values.specs.Civil.{IsFromYearOne, day_of_civil};
    ghost use Rattle.ent_values.specs.proofs_only.Civil.{civil_back, civil_of};

    ghost Value = { Day };

    ghost view = { λ d. day_of_civil d.civil };

    ghost invariant = { λ d. IsFromYearOne d.civil };

    ghost inverse = { λ d. record { civil = civil_of d } };

    ghost inverse_ok = { λ a h. λ i. record { civil = civil_back a.civil h i } };
}

impl Date {
    /// The date of a year, a month and a day of it. None if the calendar has no such day, or the year isn't 1 to 9999.
    ///
    /// Its contract is an equation.
    pub fn new(year: u16, month: u8, day: u8) -> Option<Date>
        ensures { result ≡ day_of year month day }
    {
        let civil = jiff::civil::Date::new(
            i16::try_from(year).ok()?,
            i8::try_from(month).ok()?,
            i8::try_from(day).ok()?,
        )
        .ok()?;
        if civil.year() >= 1 {
            Some(Date { civil })
        } else {
            None
        }
    }

    /// The year, from 1 to 9999.
    ///
    /// Its contract is an equation.
    pub fn year(self) -> u16
        ensures value { result ≡ self.year }
        ensures real { is_date self.year self.month self.day ≡ true }
    {
        self.civil.year().unsigned_abs()
    }

    /// The month of the year, from 1 to 12.
    ///
    /// Its contract is an equation.
    pub fn month(self) -> u8
        ensures value { result ≡ self.month }
        ensures real { is_date self.year self.month self.day ≡ true }
    {
        self.civil.month().unsigned_abs()
    }

    /// The day of the month, from 1 to 31.
    ///
    /// Its contract is an equation.
    pub fn day(self) -> u8
        ensures value { result ≡ self.day }
        ensures real { is_date self.year self.month self.day ≡ true }
    {
        self.civil.day().unsigned_abs()
    }

    /// The last day of the date's month.
    ///
    /// Its contract is an equation.
    pub fn last_of_month(self) -> Date
        ensures { result ≡ record { year = self.year; month = self.month; day = days_of_month self.year self.month } }
    {
        Date {
            civil: self.civil.last_of_month(),
        }
    }
}

impl PartialEq for Date {
    ghost use Rattle.ent_values.specs.Calendar.{day_order};

    ghost eq = { eq_by_cmp day_order };

    ghost laws = { Prim.search (comparing, rules) };

    fn eq(&self, other: &Date) -> bool {
        self.civil == other.civil
    }
}

impl Eq for Date {
    ghost laws = { Prim.search (comparing, rules) };
}

impl PartialOrd for Date {
    ghost use Rattle.ent_values.specs.Calendar.{day_order};

    ghost partial_cmp = { as_partial_cmp day_order };

    ghost laws = { partial_order_from_own_ties (Prim.search (comparing, rules))
        (Prim.search (comparing, rules)) };

    fn partial_cmp(&self, other: &Date) -> Option<Ordering> {
        Some(self.cmp(other))
    }
}

impl Ord for Date {
    ghost use Rattle.ent_values.specs.Calendar.{day_order};

    ghost cmp = { day_order };

    ghost total = { Prim.search (comparing, rules) };

    ghost matches_partial_cmp = { Prim.search (comparing, rules) };

    ghost matches_eq = { Prim.search (comparing, rules) };

    fn cmp(&self, other: &Date) -> Ordering {
        self.civil.cmp(&other.civil)
    }
}
