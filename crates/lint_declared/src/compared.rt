//! The literals with which values of designators are compared, in a match or in an application of a function.

ghost use Rattle.std.specs.Prelude.{◌≡◌, ◌++◌, [], IfOk, OnOk, map, option_map};
ghost use Rattle.std.specs.List.{flat_map};
ghost use Rattle.std.specs.Option.{option_to_list};
ghost use Rattle.serde_json.specs.View.{items_of};
ghost use Rattle.lint_places.specs.declared.part.Part.TheVariants as parts;
ghost use Rattle.lint_declared.specs.Compared.{arguments_of, at, compared, function_at, given, is_comparing, is_passing};
ghost use Rattle.lint_declared.specs.Compared.{members_from, passed};
ghost use Rattle.lint_declared.specs.proofs_only.Placed.{place_of, places_of};

use ent_functions::Function;
use ent_json::{JsonTree, text_at};
use ent_values::Text;
use lint_places::Part;
use std::alloc::{AllocError, Global};

/// A JSON value, and the JSON pointer (RFC 6901) of its place.
#[derive(Drop)]
pub(crate) struct Placed<'a, J> {
    pub(crate) pointer: Text,
    pub(crate) json: &'a J,
}

/// The function that is named at a key.
fn function_at<J: JsonTree>(object: &J, key: &str) -> Option<Function>
    ensures { result ≡ function_at key.now (J.content object.now) }
{
    Function::from_id(text_at(object, key)?)
}

/// Whether it tells whether values of its arguments are among one another.
fn is_comparing(function: Option<Function>) -> bool
    ensures { result ≡ is_comparing function }
{
    matches!(
        function,
        Some(
            Function::Equal(_)
                | Function::IsIn(_)
                | Function::AtLeastOneMemberOf(_)
                | Function::Subset(_)
                | Function::SetEquals(_)
                | Function::Intersection(_)
        )
    )
}

/// Whether it hands on the values of its arguments.
fn is_passing(function: Option<Function>) -> bool
    ensures { result ≡ is_passing function }
{
    matches!(function, Some(Function::OneAndOnly(_) | Function::Bag(_)))
}

/// What stands at a key of an object.
fn at<'a, J: JsonTree>(
    alloc: Global,
    key: &str,
    place: &Placed<'a, J>,
) -> Result<Option<Placed<'a, J>>, AllocError>
    ensures { IfOk result (λ o. option_map (place_of J.content) o ≡ at key.now (place_of J.content place.now)) }
{
    let Some(json) = place.json.get(key) else {
        return Ok(None);
    };
    let around = place.pointer.as_str();
    let pointer = Text::new(alloc, format!(in alloc; "{around}/{key}")?)?;
    Ok(Some(Placed { pointer, json }))
}

/// Puts what stands at a key of an object last.
fn put_at<'a, J: JsonTree>(
    alloc: Global,
    key: &str,
    place: &Placed<'a, J>,
    all: &mut Vec<Placed<'a, J>>,
) -> Result<(), AllocError>
    ensures { OnOk result (places_of J.content all.new.items
        ≡ places_of J.content all.old.items ++ option_to_list (at key.now (place_of J.content place.now))) }
{
    if let Some(there) = at(alloc, key, place)? {
        all.push(there)?;
    }
    Ok(())
}

/// The members of a list that stands at that pointer.
fn members<'a, J: JsonTree>(
    alloc: Global,
    around: &str,
    list: &'a [J],
) -> Result<Vec<Placed<'a, J>>, AllocError>
    ensures { IfOk result (λ all.
        places_of J.content all.items ≡ members_from around.now 0 (items_of (map J.content list.now))) }
{
    let mut all = Vec::new(alloc);
    for (number, json) in list.iter().enumerate() {
        let pointer = Text::new(alloc, format!(in alloc; "{around}/{number}")?)?;
        all.push(Placed { pointer, json })?;
    }
    Ok(all)
}

/// The arguments of an application.
fn arguments<'a, J: JsonTree>(
    alloc: Global,
    place: &Placed<'a, J>,
) -> Result<Vec<Placed<'a, J>>, AllocError>
    ensures { IfOk result (λ all. places_of J.content all.items ≡ arguments_of (place_of J.content place.now)) }
{
    let Some(list) = place.json.get("Arguments").and_then(J::as_array) else {
        return Ok(Vec::new(alloc));
    };
    let around = place.pointer.as_str();
    let pointer = format!(in alloc; "{around}/Arguments")?;
    members(alloc, pointer.as_str(), list)
}

/// Puts what stands at a key of each of some objects last.
fn put_at_each<'a, J: JsonTree>(
    alloc: Global,
    key: &str,
    places: &[Placed<'a, J>],
    all: &mut Vec<Placed<'a, J>>,
) -> Result<(), AllocError>
    ensures { OnOk result (places_of J.content all.new.items ≡ places_of J.content all.old.items
        ++ flat_map (λ p. option_to_list (at key.now p)) (places_of J.content places.now)) }
{
    for place in places {
        put_at(alloc, key, place, all)?;
    }
    Ok(())
}

/// Puts what stands at a key of the arguments of a function last, if it hands its arguments on.
fn put_passed<'a, J: JsonTree>(
    alloc: Global,
    key: &str,
    apply: &Placed<'a, J>,
    all: &mut Vec<Placed<'a, J>>,
) -> Result<(), AllocError>
    ensures { OnOk result (places_of J.content all.new.items
        ≡ places_of J.content all.old.items ++ passed key.now (place_of J.content apply.now)) }
{
    if !is_passing(function_at(apply.json, "FunctionId")) {
        return Ok(());
    }
    let arguments = arguments(alloc, apply)?;
    put_at_each(alloc, key, arguments.as_slice(), all)
}

/// Puts what stands at a key of an argument last, and of one that is handed on there.
fn put_given<'a, J: JsonTree>(
    alloc: Global,
    key: &str,
    argument: &Placed<'a, J>,
    all: &mut Vec<Placed<'a, J>>,
) -> Result<(), AllocError>
    ensures { OnOk result (places_of J.content all.new.items
        ≡ places_of J.content all.old.items ++ given key.now (place_of J.content argument.now)) }
{
    put_at(alloc, key, argument, all)?;
    match at(alloc, "Apply", argument)? {
        None => Ok(()),
        Some(apply) => put_passed(alloc, key, &apply, all),
    }
}

/// Puts what stands at a key of each of some arguments last, and of those that are handed on there.
fn put_given_each<'a, J: JsonTree>(
    alloc: Global,
    key: &str,
    arguments: &[Placed<'a, J>],
    all: &mut Vec<Placed<'a, J>>,
) -> Result<(), AllocError>
    ensures { OnOk result (places_of J.content all.new.items
        ≡ places_of J.content all.old.items ++ flat_map (given key.now) (places_of J.content arguments.now)) }
{
    for argument in arguments {
        put_given(alloc, key, argument, all)?;
    }
    Ok(())
}

/// What is compared in a match, of those that stand at a key.
fn compared_in_match<'a, J: JsonTree>(
    alloc: Global,
    key: &str,
    place: &Placed<'a, J>,
) -> Result<Vec<Placed<'a, J>>, AllocError>
    ensures { IfOk result (λ all.
        places_of J.content all.items ≡ compared key.now parts.Match (place_of J.content place.now)) }
{
    let mut all = Vec::new(alloc);
    if is_comparing(function_at(place.json, "MatchId")) {
        put_at(alloc, key, place, &mut all)?;
    }
    Ok(all)
}

/// What is compared in an application of a function, of those that stand at a key.
fn compared_in_apply<'a, J: JsonTree>(
    alloc: Global,
    key: &str,
    place: &Placed<'a, J>,
) -> Result<Vec<Placed<'a, J>>, AllocError>
    ensures { IfOk result (λ all.
        places_of J.content all.items ≡ compared key.now parts.Apply (place_of J.content place.now)) }
{
    let mut all = Vec::new(alloc);
    if is_comparing(function_at(place.json, "FunctionId")) {
        let arguments = arguments(alloc, place)?;
        put_given_each(alloc, key, arguments.as_slice(), &mut all)?;
    }
    Ok(all)
}

/// What is compared in a part, of those that stand at a key.
pub(crate) fn compared<'a, J: JsonTree>(
    alloc: Global,
    key: &str,
    part: Part,
    place: &Placed<'a, J>,
) -> Result<Vec<Placed<'a, J>>, AllocError>
    ensures { IfOk result (λ all.
        places_of J.content all.items ≡ compared key.now part (place_of J.content place.now)) }
{
    match part {
        Part::Match => compared_in_match(alloc, key, place),
        Part::Apply => compared_in_apply(alloc, key, place),
        _ => Ok(Vec::new(alloc)),
    }
}
