//! Values of attributes.

ghost use Rattle.std.specs.Prelude.{◌≡◌, true, IfOk, OnErr};
ghost use Rattle.ent_values.specs.Calendar.{is_date, is_time};
ghost use Rattle.ent_values.specs.Order.{OrderIsByTypeAndValue};
ghost use Rattle.ent_values.specs.ReadBack.{IsReal, IsRealMoment, TextsReadBack};
ghost use Rattle.ent_values.specs.Reading.{is_within_64_bits};
ghost use Rattle.ent_values.specs.Same.{SameBagsAreEqual, SameIsEqual, SameListsAreEqual, SameTypesAreEqual};
ghost use Rattle.ent_values.specs.Types.{datatype_of, is_textual};

use crate::datatype::DataType;
use crate::date::Date;
use crate::date_time::DateTime;
use crate::duration::YearMonth;
use crate::text::Text;
use crate::time::Time;
use std::alloc::{AllocError, Global};

/// One value of a data type (appendix A.2). Values are equal if type and value are. They order by type, then by value:
/// texts by their UTF-8 bytes, false before true, numbers and durations the smaller first, dates, times and dateTimes the
/// earlier first.
#[derive(Debug, PartialEq, Eq, PartialOrd, Ord, Drop)]
pub enum Value {
    /// A string.
    Text(Text),
    /// True or false.
    Boolean(bool),
    /// An integer within signed 64 bits.
    Integer(i64),
    /// A date.
    Date(Date),
    /// A URI, which may be any text.
    AnyUri(Text),
    /// A duration of years and months.
    YearMonth(YearMonth),
    /// A time of day.
    Time(Time),
    /// A date and a time of it.
    DateTime(DateTime),
}

impl Value {
    /// The type of the value.
    ///
    /// Its contract is an equation.
    pub fn datatype(&self) -> DataType
        ensures { result ≡ datatype_of self.now }
    {
        match self {
            Value::Text(_) => DataType::Text,
            Value::Boolean(_) => DataType::Boolean,
            Value::Integer(_) => DataType::Integer,
            Value::Date(_) => DataType::Date,
            Value::AnyUri(_) => DataType::AnyUri,
            Value::YearMonth(_) => DataType::YearMonth,
            Value::Time(_) => DataType::Time,
            Value::DateTime(_) => DataType::DateTime,
        }
    }

    /// An equal value. Memory is asked for the text of a string or a URI alone, so no other value is refused.
    ///
    /// Its contract is an equation but for memory.
    pub fn copy(&self, alloc: Global) -> Result<Value, AllocError>
        ensures value { IfOk result (λ v. v ≡ self.now) }
        ensures memory { OnErr result (is_textual (datatype_of self.now) ≡ true) }
    {
        match self {
            Value::Text(text) => Ok(Value::Text(text.copy(alloc)?)),
            Value::Boolean(boolean) => Ok(Value::Boolean(*boolean)),
            Value::Integer(integer) => Ok(Value::Integer(*integer)),
            Value::Date(date) => Ok(Value::Date(*date)),
            Value::AnyUri(uri) => Ok(Value::AnyUri(uri.copy(alloc)?)),
            Value::YearMonth(duration) => Ok(Value::YearMonth(*duration)),
            Value::Time(time) => Ok(Value::Time(*time)),
            Value::DateTime(moment) => Ok(Value::DateTime(*moment)),
        }
    }
}

/// What the type says of each value: an integer is within signed 64 bits, a date is a day of the calendar, a time is one
/// that a clock shows. It changes nothing and is called for what it ensures.
pub fn value_is_real(value: &Value)
    ensures { IsReal value.now }
{
    match value {
        Value::Integer(integer) => integer_is_real(*integer),
        Value::Date(date) => date_is_real(*date),
        Value::Time(time) => time_is_real(*time),
        Value::DateTime(moment) => moment_is_real(moment),
        _ => {}
    }
}

fn integer_is_real(integer: i64)
    ensures { is_within_64_bits integer ≡ true }
{}

fn date_is_real(date: Date)
    ensures { is_date date.year date.month date.day ≡ true }
{
    date.year();
}

fn time_is_real(time: Time)
    ensures { is_time time.hour time.minute time.second ≡ true }
{
    time.hour();
}

fn moment_is_real(moment: &DateTime)
    ensures { IsRealMoment moment.now }
{
    date_is_real(moment.date());
    time_is_real(moment.time());
}

/// A law, with nothing to run: `==` of two types, of two values, of two lists of values and of two bags says whether
/// they are equal.
pub fn same_is_equal()
    ensures types { SameTypesAreEqual }
    ensures values { SameIsEqual }
    ensures lists { SameListsAreEqual }
    ensures bags { SameBagsAreEqual }
{}

/// A law, with nothing to run: the written text of a value reads as that value again, where a duration has at most
/// 999,999,999 whole years.
pub fn texts_read_back()
    ensures { TextsReadBack }
{}

/// A law, with nothing to run: values order by type, then by value.
pub fn order_is_by_type_and_value()
    ensures { OrderIsByTypeAndValue }
{}
