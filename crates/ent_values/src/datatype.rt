//! Data types of values.

ghost use Rattle.std.specs.Prelude.{◌≡◌};
ghost use Rattle.ent_values.specs.Order.{TypesOrderAsListed};
ghost use Rattle.ent_values.specs.Types.{TypeNamesReadBack, short_name_of, type_of, uri_of};

/// The data type of a value (appendix A.2, its URI by appendix B.3). Types order as they stand here.
#[derive(Clone, Copy, Debug, PartialEq, Eq, PartialOrd, Ord)]
pub enum DataType {
    /// `http://www.w3.org/2001/XMLSchema#string`
    Text,
    /// `http://www.w3.org/2001/XMLSchema#boolean`
    Boolean,
    /// `http://www.w3.org/2001/XMLSchema#integer`, within signed 64 bits
    Integer,
    /// `http://www.w3.org/2001/XMLSchema#date`, in the years 1 to 9999
    Date,
    /// `http://www.w3.org/2001/XMLSchema#anyURI`
    AnyUri,
    /// `http://www.w3.org/2001/XMLSchema#yearMonthDuration`
    YearMonth,
    /// `http://www.w3.org/2001/XMLSchema#time`, in whole seconds
    Time,
    /// `http://www.w3.org/2001/XMLSchema#dateTime`, in the years 1 to 9999 and in whole seconds
    DateTime,
}

impl DataType {
    /// Every type, in order.
    pub const ALL: &'static [DataType] = &[
        DataType::Text,
        DataType::Boolean,
        DataType::Integer,
        DataType::Date,
        DataType::AnyUri,
        DataType::YearMonth,
        DataType::Time,
        DataType::DateTime,
    ];

    /// The type of that name: a full URI, or the short name of this profile, its last word. None if there is no such
    /// type.
    ///
    /// Its contract is an equation.
    #[tactic(auto, unfolding(crate::specs::Types::type_of))]
    pub fn from_name(name: &str) -> Option<DataType>
        ensures { result ≡ type_of name.now }
    {
        let mut types = DataType::ALL.iter().copied();
        types.find(|datatype| name == datatype.uri() || name == datatype.short_name())
    }

    /// The full URI of the type.
    ///
    /// Its contract is an equation.
    #[tactic(auto, unfolding(crate::specs::Types::uri_of))]
    pub fn uri(self) -> &'static str
        ensures { result.now ≡ uri_of self }
    {
        match self {
            DataType::Text => "http://www.w3.org/2001/XMLSchema#string",
            DataType::Boolean => "http://www.w3.org/2001/XMLSchema#boolean",
            DataType::Integer => "http://www.w3.org/2001/XMLSchema#integer",
            DataType::Date => "http://www.w3.org/2001/XMLSchema#date",
            DataType::AnyUri => "http://www.w3.org/2001/XMLSchema#anyURI",
            DataType::YearMonth => "http://www.w3.org/2001/XMLSchema#yearMonthDuration",
            DataType::Time => "http://www.w3.org/2001/XMLSchema#time",
            DataType::DateTime => "http://www.w3.org/2001/XMLSchema#dateTime",
        }
    }

    /// The short name of the type, the last word of its URI.
    ///
    /// Its contract is an equation.
    #[tactic(auto, unfolding(crate::specs::Types::short_name_of))]
    pub fn short_name(self) -> &'static str
        ensures { result.now ≡ short_name_of self }
    {
        match self {
            DataType::Text => "string",
            DataType::Boolean => "boolean",
            DataType::Integer => "integer",
            DataType::Date => "date",
            DataType::AnyUri => "anyURI",
            DataType::YearMonth => "yearMonthDuration",
            DataType::Time => "time",
            DataType::DateTime => "dateTime",
        }
    }
}

/// A law, with nothing to run: the full URI of a type stands for that type, and so does its short name.
pub fn type_names_read_back()
    ensures { TypeNamesReadBack }
{}

/// A law, with nothing to run: types order as the list of all types has them: string, boolean, integer, date, anyURI,
/// yearMonthDuration, time, dateTime.
pub fn types_order_as_listed()
    ensures { TypesOrderAsListed }
{}
