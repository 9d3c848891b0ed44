//! What the standard has and isn't here, and what says it here.

use crate::words::last_word;

/// Functions of the standard that aren't here, by the last words of their identifiers.
const FUNCTIONS: &[(&str, &str)] = &[
    ("string-equal-ignore-case", "values stored in lower case"),
    ("round", "`integer-divide`, which cuts toward zero"),
    ("floor", "`integer-divide`, which cuts toward zero"),
    (
        "string-normalize-space",
        "values stored without white space around them",
    ),
    (
        "string-normalize-to-lower-case",
        "values stored in lower case",
    ),
    ("integer-to-double", "whole numbers everywhere"),
    ("n-of", "`or`, `and` and `not`"),
    (
        "time-in-range",
        "two comparisons under `and`, or under `or` over midnight",
    ),
    (
        "string-substring",
        "`string-starts-with`, `string-ends-with` or `string-contains`",
    ),
    ("any-of-any", "with an equality `at-least-one-member-of`"),
    ("all-of-any", "with an equality `subset`"),
    ("any-of-all", "`or` of `all-of`"),
    ("all-of-all", "`and` of `all-of`"),
    ("map", "an attribute with the values that it gives"),
    ("access-permitted", "an attribute with what it gives"),
];

/// How the last words of such functions begin.
const FRONTS: &[(&str, &str)] = &[
    ("double-", "whole numbers, as cents for an amount"),
    ("yearMonthDuration-", "its months as an `integer`"),
    (
        "dayTimeDuration-",
        "the day or the moment that comes of it as an attribute",
    ),
    (
        "dateTime-add-",
        "the moment that comes of it as an attribute",
    ),
    (
        "dateTime-subtract-",
        "the moment that comes of it as an attribute",
    ),
    ("hexBinary-", "a `string` in one spelling"),
    ("base64Binary-", "a `string` in one spelling"),
    (
        "rfc822Name-",
        "a `string`, and the part that is asked for as an attribute",
    ),
    (
        "x500Name-",
        "a `string`, and the part that is asked for as an attribute",
    ),
    (
        "ipAddress-",
        "a `string`, and the part that is asked for as an attribute",
    ),
    (
        "dnsName-",
        "a `string`, and the part that is asked for as an attribute",
    ),
    ("xpath-", "an attribute with what it finds"),
    (
        "string-from-",
        "attributes stored with the type that is compared",
    ),
];

/// How they end.
const ENDS: &[(&str, &str)] = &[
    (
        "-regexp-match",
        "`string-starts-with`, `string-contains`, or `is-in` of a list of words",
    ),
    (
        "-from-string",
        "attributes stored with the type that is compared",
    ),
    (
        "-substring",
        "`string-starts-with`, `string-ends-with` or `string-contains`",
    ),
];

/// Data types of the standard that aren't here, by the last words of their identifiers.
const TYPES: &[(&str, &str)] = &[
    ("double", "an `integer`, as cents for an amount"),
    (
        "dayTimeDuration",
        "the day or the moment that comes of it as an attribute",
    ),
    ("hexBinary", "a `string` in one spelling"),
    ("base64Binary", "a `string` in one spelling"),
    (
        "rfc822Name",
        "a `string`, and the part that is asked for as an attribute",
    ),
    (
        "x500Name",
        "a `string`, and the part that is asked for as an attribute",
    ),
    (
        "ipAddress",
        "a `string`, and the part that is asked for as an attribute",
    ),
    (
        "dnsName",
        "a `string`, and the part that is asked for as an attribute",
    ),
    ("xpathExpression", "an attribute with what it finds"),
];

/// How the identifiers of the standard's functions and data types begin.
const STANDARD: &[&str] = &[
    "urn:oasis:names:tc:xacml:",
    "http://www.w3.org/2001/XMLSchema#",
    "http://www.w3.org/TR/2002/WD-xquery-operators-20020816#",
];

/// Whether it is an identifier of the standard, or its last word alone.
fn is_of_standard(id: &str) -> bool {
    if !id.contains(':') {
        return true;
    }
    STANDARD.iter().any(|front| id.starts_with(front))
}

/// What says here what a function of the standard says that isn't here, by its identifier.
pub(crate) fn instead_of_function(id: &str) -> Option<&'static str> {
    if !is_of_standard(id) {
        return None;
    }
    let word = last_word(id);
    if let Some(instead) = instead_of(FUNCTIONS, word) {
        return Some(instead);
    }
    for &(front, instead) in FRONTS {
        if word.starts_with(front) {
            return Some(instead);
        }
    }
    for &(end, instead) in ENDS {
        if word.ends_with(end) {
            return Some(instead);
        }
    }
    None
}

/// What says here what a data type of the standard says that isn't here, by its identifier.
pub(crate) fn instead_of_type(id: &str) -> Option<&'static str> {
    if is_of_standard(id) {
        instead_of(TYPES, last_word(id))
    } else {
        None
    }
}

/// What stands beside the word.
fn instead_of(known: &[(&str, &'static str)], word: &str) -> Option<&'static str> {
    for &(each, instead) in known {
        if word == each {
            return Some(instead);
        }
    }
    None
}
