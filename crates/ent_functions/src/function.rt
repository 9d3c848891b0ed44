//! The functions by name.

/// A type at which there are the functions on equality, bags and sets.
#[derive(Clone, Copy, Debug, PartialEq, Eq)]
pub enum Element {
    /// `string`
    Text,
    /// `boolean`
    Boolean,
    /// `integer`
    Integer,
    /// `date`
    Date,
    /// `anyURI`
    AnyUri,
    /// `time`
    Time,
    /// `dateTime`
    DateTime,
}

impl Element {
    /// Each type.
    pub const ALL: &'static [Element] = &[
        Element::Text,
        Element::Boolean,
        Element::Integer,
        Element::Date,
        Element::AnyUri,
        Element::Time,
        Element::DateTime,
    ];
}

/// A type whose values can be compared by order.
#[derive(Clone, Copy, Debug, PartialEq, Eq)]
pub enum Ordered {
    /// `integer`
    Integer,
    /// `string`
    Text,
    /// `date`
    Date,
    /// `time`
    Time,
    /// `dateTime`
    DateTime,
}

impl Ordered {
    /// Each type with an order.
    pub const ALL: &'static [Ordered] = &[
        Ordered::Integer,
        Ordered::Text,
        Ordered::Date,
        Ordered::Time,
        Ordered::DateTime,
    ];
}

/// How two values are compared: the first against the second.
#[derive(Clone, Copy, Debug, PartialEq, Eq)]
pub enum Comparison {
    /// `greater-than`
    GreaterThan,
    /// `greater-than-or-equal`
    GreaterThanOrEqual,
    /// `less-than`
    LessThan,
    /// `less-than-or-equal`
    LessThanOrEqual,
}

impl Comparison {
    /// Each comparison.
    pub const ALL: &'static [Comparison] = &[
        Comparison::GreaterThan,
        Comparison::GreaterThanOrEqual,
        Comparison::LessThan,
        Comparison::LessThanOrEqual,
    ];
}

/// A function (appendix A.3).
#[derive(Clone, Copy, Debug, PartialEq, Eq)]
pub enum Function {
    /// `T-equal`
    Equal(Element),
    /// `T-greater-than` and its kin
    Compare(Comparison, Ordered),
    /// `integer-add`
    Add,
    /// `integer-subtract`
    Subtract,
    /// `integer-multiply`
    Multiply,
    /// `integer-divide`
    Divide,
    /// `integer-mod`
    Mod,
    /// `integer-abs`
    Abs,
    /// `or`
    Or,
    /// `and`
    And,
    /// `not`
    Not,
    /// `T-one-and-only`
    OneAndOnly(Element),
    /// `T-bag-size`
    BagSize(Element),
    /// `T-is-in`
    IsIn(Element),
    /// `T-bag`
    Bag(Element),
    /// `T-intersection`
    Intersection(Element),
    /// `T-union`
    Union(Element),
    /// `T-at-least-one-member-of`
    AtLeastOneMemberOf(Element),
    /// `T-subset`
    Subset(Element),
    /// `T-set-equals`
    SetEquals(Element),
    /// `string-concatenate`
    Concatenate,
    /// `string-starts-with`
    StartsWith,
    /// `string-ends-with`
    EndsWith,
    /// `string-contains`
    Contains,
    /// `date-add-yearMonthDuration`
    DateAdd,
    /// `date-subtract-yearMonthDuration`
    DateSubtract,
    /// `any-of`
    AnyOf,
    /// `all-of`
    AllOf,
}

impl Function {
    /// Those of which there is one alone.
    pub const SINGLE: &'static [Function] = &[
        Function::Add,
        Function::Subtract,
        Function::Multiply,
        Function::Divide,
        Function::Mod,
        Function::Abs,
        Function::Or,
        Function::And,
        Function::Not,
        Function::Concatenate,
        Function::StartsWith,
        Function::EndsWith,
        Function::Contains,
        Function::DateAdd,
        Function::DateSubtract,
        Function::AnyOf,
        Function::AllOf,
    ];
}
