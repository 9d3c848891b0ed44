//! The type of each function's result.

ghost use Rattle.std.specs.Prelude.{◌≡◌, ◌==◌, [], ◌∷◌, map, count_by};
ghost use Rattle.std.specs.List.{list_all};
ghost use Rattle.std.specs.Cmp.Lexicographic.{pointwise};
ghost use Rattle.ent_functions.specs.Types.{element_type, ordered_type, same_type, exactly, each, two_or_more, is_bag};
ghost use Rattle.ent_functions.specs.Types.{one_of, is_boolean, first_order_type, higher_order_type};
ghost use Rattle.ent_functions.specs.proofs_only.Types.{seen_type};
ghost use Rattle.ent_functions.specs.Types.{result_type_of};

use crate::function::{Element, Function, Ordered};
use crate::types::ArgType;
use ent_values::DataType;

impl Element {
    /// The data type of the element.
    pub(crate) fn datatype(self) -> DataType
        ensures { result ≡ element_type self }
    {
        match self {
            Element::Text => DataType::Text,
            Element::Boolean => DataType::Boolean,
            Element::Integer => DataType::Integer,
            Element::Date => DataType::Date,
            Element::AnyUri => DataType::AnyUri,
            Element::Time => DataType::Time,
            Element::DateTime => DataType::DateTime,
        }
    }
}

impl Ordered {
    fn datatype(self) -> DataType
        ensures { result ≡ ordered_type self }
    {
        match self {
            Ordered::Integer => DataType::Integer,
            Ordered::Text => DataType::Text,
            Ordered::Date => DataType::Date,
            Ordered::Time => DataType::Time,
            Ordered::DateTime => DataType::DateTime,
        }
    }
}

// The types of the arguments of a call. The function under any-of and all-of is given one value of the bag in the bag's
// place.
#[derive(Clone, Copy)]
struct GivenTypes<'a> {
    types: &'a [ArgType],
    one_of_bag: bool,
}

// The type of an argument, where one value of a bag stands in its place if `one_of_bag` says so.
fn seen(given: ArgType, one_of_bag: bool) -> ArgType
    ensures { result ≡ seen_type one_of_bag given }
{
    match given {
        ArgType::Many(datatype) => {
            if one_of_bag {
                ArgType::One(datatype)
            } else {
                given
            }
        }
        _ => given,
    }
}

impl GivenTypes<'_> {
    // That result type, if there is one argument, and of that type.
    fn exactly_one(self, wanted: ArgType, outcome: ArgType) -> Option<ArgType>
        ensures { result ≡ exactly (wanted ∷ []) outcome (map (seen_type self.entry.one_of_bag) self.entry.types.now) }
    {
        match self.types {
            [given] => {
                if seen(*given, self.one_of_bag) == wanted {
                    Some(outcome)
                } else {
                    None
                }
            }
            _ => None,
        }
    }

    // That result type, if there are two arguments, and of these types.
    fn exactly_two(self, wanted: ArgType, then: ArgType, outcome: ArgType) -> Option<ArgType>
        ensures { result ≡ exactly (wanted ∷ then ∷ []) outcome
            (map (seen_type self.entry.one_of_bag) self.entry.types.now) }
    {
        match self.types {
            [first, second] => {
                if seen(*first, self.one_of_bag) == wanted
                    && seen(*second, self.one_of_bag) == then
                {
                    Some(outcome)
                } else {
                    None
                }
            }
            _ => None,
        }
    }

    // Whether each argument has that type.
    fn is_each(self, wanted: ArgType) -> bool
        ensures { result ≡ list_all (λ type. same_type (seen_type self.entry.one_of_bag type) wanted)
            self.entry.types.now }
    {
        let one_of_bag = self.one_of_bag;
        self.types
            .iter()
            .all(|given| seen(*given, one_of_bag) == wanted)
    }

    // That result type, if each argument has that type.
    #[tactic(auto, using(crate::proofs::TypesSeen::all_mapped))]
    fn each(self, wanted: ArgType, outcome: ArgType) -> Option<ArgType>
        ensures { result ≡ each wanted outcome (map (seen_type self.entry.one_of_bag) self.entry.types.now) }
    {
        if self.is_each(wanted) {
            Some(outcome)
        } else {
            None
        }
    }

    // That result type, if each of two arguments or more has that type.
    fn two_or_more(self, wanted: ArgType, outcome: ArgType) -> Option<ArgType>
        ensures { result ≡ two_or_more wanted outcome (map (seen_type self.entry.one_of_bag) self.entry.types.now) }
    {
        if self.types.len() >= 2 {
            self.each(wanted, outcome)
        } else {
            None
        }
    }
}

impl Function {
    /// The type of the function's result for arguments of these types (appendix A.3), None if the function takes no
    /// such arguments.
    ///
    /// Its contract is an equation.
    #[tactic(auto, using(crate::proofs::TypesSeen::seen_as_given), unfolding(crate::specs::Types::result_type_of))]
    pub fn result_type(self, given: &[ArgType]) -> Option<ArgType>
        ensures { result ≡ result_type_of self given.now }
    {
        match self {
            Function::AnyOf | Function::AllOf => higher_order(given),
            _ => first_order(
                self,
                GivenTypes {
                    types: given,
                    one_of_bag: false,
                },
            ),
        }
    }
}

// The result type of a function that takes no function.
#[tactic(auto, unfolding(crate::specs::Types::first_order_type))]
fn first_order(function: Function, given: GivenTypes<'_>) -> Option<ArgType>
    ensures { result ≡ first_order_type function (map (seen_type given.entry.one_of_bag) given.entry.types.now) }
{
    let boolean = ArgType::One(DataType::Boolean);
    let integer = ArgType::One(DataType::Integer);
    let text = ArgType::One(DataType::Text);
    let date = ArgType::One(DataType::Date);
    let duration = ArgType::One(DataType::YearMonth);
    match function {
        Function::Equal(e) => given.exactly_two(
            ArgType::One(e.datatype()),
            ArgType::One(e.datatype()),
            boolean,
        ),
        Function::Compare(_, o) => given.exactly_two(
            ArgType::One(o.datatype()),
            ArgType::One(o.datatype()),
            boolean,
        ),
        Function::Add | Function::Multiply => given.two_or_more(integer, integer),
        Function::Subtract | Function::Divide | Function::Mod => given.exactly_two(
            integer, integer, integer,
        ),
        Function::Abs => given.exactly_one(integer, integer),
        Function::Or | Function::And => given.each(boolean, boolean),
        Function::Not => given.exactly_one(boolean, boolean),
        Function::Concatenate => given.two_or_more(text, text),
        Function::StartsWith | Function::EndsWith | Function::Contains => given.exactly_two(
            text, text, boolean,
        ),
        Function::DateAdd | Function::DateSubtract => given.exactly_two(date, duration, date),
        Function::OneAndOnly(e) => given.exactly_one(
            ArgType::Many(e.datatype()),
            ArgType::One(e.datatype()),
        ),
        Function::BagSize(e) => given.exactly_one(ArgType::Many(e.datatype()), integer),
        Function::IsIn(e) => given.exactly_two(
            ArgType::One(e.datatype()),
            ArgType::Many(e.datatype()),
            boolean,
        ),
        Function::Bag(e) => given.each(ArgType::One(e.datatype()), ArgType::Many(e.datatype())),
        Function::Union(e) => given.two_or_more(
            ArgType::Many(e.datatype()),
            ArgType::Many(e.datatype()),
        ),
        Function::Intersection(e) => {
            let bag = ArgType::Many(e.datatype());
            given.exactly_two(bag, bag, bag)
        }
        Function::AtLeastOneMemberOf(e) | Function::Subset(e) | Function::SetEquals(e) => {
            let bag = ArgType::Many(e.datatype());
            given.exactly_two(bag, bag, boolean)
        }
        Function::AnyOf | Function::AllOf => None,
    }
}

// The result type of any-of and all-of.
#[tactic(auto, unfolding(crate::specs::Types::higher_order_type))]
fn higher_order(given: &[ArgType]) -> Option<ArgType>
    ensures { result ≡ higher_order_type given.now }
{
    let boolean = ArgType::One(DataType::Boolean);
    match given {
        [ArgType::Fun(function), given @ ..] => {
            let bags = given
                .iter()
                .filter(|given| matches!(given, ArgType::Many(_)))
                .count();
            let inner = first_order(
                *function,
                GivenTypes {
                    types: given,
                    one_of_bag: true,
                },
            );
            if bags == 1 && inner == Some(boolean) {
                Some(boolean)
            } else {
                None
            }
        }
        _ => None,
    }
}
