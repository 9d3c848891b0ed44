//! Which arguments a function takes, found by asking which it gives a result for.

use crate::words::{arguments, last_word, ordinal, typed};
use ent_functions::{ArgType, Element, Function};
use ent_values::DataType;
use std::alloc::{AllocError, Global};

/// Every type that an argument of a function that takes no function may have.
const TYPES: &[ArgType] = &[
    ArgType::One(DataType::Text),
    ArgType::One(DataType::Boolean),
    ArgType::One(DataType::Integer),
    ArgType::One(DataType::Date),
    ArgType::One(DataType::AnyUri),
    ArgType::One(DataType::YearMonth),
    ArgType::One(DataType::Time),
    ArgType::One(DataType::DateTime),
    ArgType::Many(DataType::Text),
    ArgType::Many(DataType::Boolean),
    ArgType::Many(DataType::Integer),
    ArgType::Many(DataType::Date),
    ArgType::Many(DataType::AnyUri),
    ArgType::Many(DataType::YearMonth),
    ArgType::Many(DataType::Time),
    ArgType::Many(DataType::DateTime),
];

/// The arguments that a function takes: the type of the first, that of each behind it, how many there are at least, and
/// at most where there is a most.
#[derive(Clone, Copy)]
struct Takes {
    first: ArgType,
    others: ArgType,
    least: usize,
    most: Option<usize>,
}

impl Takes {
    /// The type of the argument at that place.
    fn at(&self, place: usize) -> ArgType {
        if place == 0 { self.first } else { self.others }
    }

    /// Whether that many arguments are taken.
    fn is_count(&self, count: usize) -> bool {
        match self.most {
            Some(most) => self.least <= count && count <= most,
            None => self.least <= count,
        }
    }
}

/// Whether the function takes arguments of these types.
fn is_taken(function: Function, given: &[ArgType]) -> bool {
    function.result_type(given).is_some()
}

/// The two types of which the function takes one argument each.
fn taken_pair(function: Function) -> Option<(ArgType, ArgType)> {
    for first in TYPES {
        for second in TYPES {
            if is_taken(function, &[*first, *second]) {
                return Some((*first, *second));
            }
        }
    }
    None
}

/// The arguments that the function takes, unless it takes a function.
fn taken(function: Function) -> Option<Takes> {
    if let Some((first, others)) = taken_pair(function) {
        let least = if is_taken(function, &[]) {
            0
        } else if is_taken(function, &[first]) {
            1
        } else {
            2
        };
        let is_open = is_taken(function, &[first, others, others]);
        let most = if is_open { None } else { Some(2) };
        return Some(Takes {
            first,
            others,
            least,
            most,
        });
    }
    for first in TYPES {
        if is_taken(function, &[*first]) {
            return Some(Takes {
                first: *first,
                others: *first,
                least: 1,
                most: Some(1),
            });
        }
    }
    None
}

/// The arguments that a function takes, in words.
fn taken_words(alloc: Global, takes: &Takes) -> Result<String, AllocError> {
    let first = typed(takes.first);
    let others = typed(takes.others);
    match takes.most {
        Some(1) => String::from_str(alloc, first),
        Some(_) => format!(in alloc; "{first} and {others}"),
        None if takes.least == 0 => format!(in alloc; "any number of arguments, each {first}"),
        None => format!(in alloc; "{} arguments or more, each {first}", takes.least),
    }
}

/// The function of that type that would make an argument fit, where there is one.
fn remedy(alloc: Global, wanted: ArgType, given: ArgType) -> Result<String, AllocError> {
    let wrapped = match (wanted, given) {
        (ArgType::One(one), ArgType::Many(many)) if one == many => element(one).map(
            Function::OneAndOnly,
        ),
        (ArgType::Many(many), ArgType::One(one)) if one == many => element(one).map(Function::Bag),
        _ => None,
    };
    let Some(wrapped) = wrapped else {
        return Ok(String::new(alloc));
    };
    let wanted = typed(wanted);
    let id = wrapped.id(alloc)?;
    let name = last_word(id.as_str());
    format!(in alloc; " (`{name}` makes {wanted} of it)")
}

/// The type at which there are functions on bags, of a data type.
fn element(datatype: DataType) -> Option<Element> {
    match datatype {
        DataType::Text => Some(Element::Text),
        DataType::Boolean => Some(Element::Boolean),
        DataType::Integer => Some(Element::Integer),
        DataType::Date => Some(Element::Date),
        DataType::AnyUri => Some(Element::AnyUri),
        DataType::Time => Some(Element::Time),
        DataType::DateTime => Some(Element::DateTime),
        DataType::YearMonth => None,
    }
}

/// Why the function takes no such arguments. Where a function can stand around an argument, it is told which one makes
/// it fit.
pub(crate) fn misfit(
    alloc: Global,
    function: Function,
    given: &[ArgType],
    can_stand_around: bool,
) -> Result<String, AllocError> {
    let id = function.id(alloc)?;
    let name = last_word(id.as_str());
    match function {
        Function::AnyOf | Function::AllOf => higher_misfit(alloc, name, given),
        _ => plain_misfit(alloc, name, function, given, can_stand_around),
    }
}

/// Why a function that takes no function takes no such arguments.
fn plain_misfit(
    alloc: Global,
    name: &str,
    function: Function,
    given: &[ArgType],
    can_stand_around: bool,
) -> Result<String, AllocError> {
    let Some(takes) = taken(function) else {
        return format!(in alloc; "`{name}` doesn't take these arguments");
    };
    let wanted = taken_words(alloc, &takes)?;
    if !takes.is_count(given.len()) {
        let count = arguments(alloc, given.len())?;
        return format!(in alloc; "`{name}` takes {wanted}; it has {count}");
    }
    for (place, argument) in given.iter().enumerate() {
        if *argument != takes.at(place) {
            let word = ordinal(alloc, place)?;
            let what = typed(*argument);
            let remedy = if can_stand_around {
                remedy(alloc, takes.at(place), *argument)?
            } else {
                String::new(alloc)
            };
            return format!(in alloc;
                "`{name}` takes {wanted}; its {word} argument is {what}{remedy}"
            );
        }
    }
    format!(in alloc; "`{name}` takes {wanted}")
}

/// Why `any-of` and `all-of` take no such arguments.
fn higher_misfit(alloc: Global, name: &str, given: &[ArgType]) -> Result<String, AllocError> {
    let [first, rest @ ..] = given else {
        return format!(in alloc;
            "`{name}` takes a function, values and one bag; it has no argument"
        );
    };
    let ArgType::Fun(applied) = *first else {
        let what = typed(*first);
        return format!(in alloc;
            "`{name}` takes a function first, as `Function`; its first argument is {what}"
        );
    };
    let bags = rest
        .iter()
        .filter(|given| matches!(given, ArgType::Many(_)))
        .count();
    if bags != 1 {
        return format!(in alloc;
            "`{name}` takes exactly one bag behind its function; it has {bags}"
        );
    }
    let mut seen = Vec::new(alloc);
    for argument in rest {
        seen.push(match argument {
            ArgType::Many(datatype) => ArgType::One(*datatype),
            ArgType::One(_) | ArgType::Fun(_) => *argument,
        })?;
    }
    applied_misfit(alloc, name, applied, seen.as_slice())
}

/// Why the function can't be applied by `any-of` or `all-of` to such values.
fn applied_misfit(
    alloc: Global,
    name: &str,
    applied: Function,
    given: &[ArgType],
) -> Result<String, AllocError> {
    let id = applied.id(alloc)?;
    let word = last_word(id.as_str());
    match applied.result_type(given) {
        Some(outcome) => {
            let what = typed(outcome);
            format!(in alloc;
                "`{name}` takes a function that gives a boolean; `{word}` gives {what}"
            )
        }
        None => {
            let cause = misfit_once(alloc, word, applied, given)?;
            format!(in alloc; "`{name}` applies `{word}` to each value of the bag: {cause}")
        }
    }
}

/// Why a function that is applied takes no such arguments.
fn misfit_once(
    alloc: Global,
    word: &str,
    applied: Function,
    given: &[ArgType],
) -> Result<String, AllocError> {
    match applied {
        Function::AnyOf | Function::AllOf => {
            format!(in alloc; "`{word}` takes a function itself, and can't be applied")
        }
        _ => plain_misfit(alloc, word, applied, given, false),
    }
}
