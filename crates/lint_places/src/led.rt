//! To which variable definitions of a policy one of them leads.

ghost use Rattle.std.specs.Prelude.{◌≡◌, ◌++◌, ◌∷◌, ◌||◌, [], IfOk, List, OnOk, false, get_or, if◌then◌else◌, map, ℕ};
ghost use Rattle.std.specs.List.{list_any, zip};
ghost use Rattle.ent_policy.specs.proofs_only.Order.{has_id};
ghost use Rattle.ent_polform.specs.Form.{definition_of};
ghost use Rattle.lint_places.specs.Led.{led, links, numbers_of, only, readable, referring, refers, refers_to};
ghost use Rattle.lint_places.specs.proofs_only.Rows.{by_noted, is_reached_by};

use ent_json::JsonTree;
use ent_polform::raw_definition;
use ent_policy::{CheckFault, RawExpression, RawVariableDefinition};
use std::alloc::{AllocError, Global};
use std::collections::BTreeSet;

/// Notes the variables to which an expression refers, itself or in an argument.
#[cycle(note)]
pub(crate) fn note<'r>(
    expression: &'r RawExpression,
    ids: &mut BTreeSet<&'r str>,
) -> Result<(), AllocError>
    ensures { OnOk result ((q : List ℕ) → has_id ids.new q ≡ (has_id ids.old q || refers q expression.now)) }
{
    match expression {
        RawExpression::Variable(id) => {
            ids.insert(id.as_str())?;
            Ok(())
        }
        RawExpression::Apply(_, arguments) => note_all(arguments.as_slice(), ids),
        _ => Ok(()),
    }
}

/// Notes the variables to which some expressions refer.
#[cycle(note)]
fn note_all<'r>(
    expressions: &'r [RawExpression],
    ids: &mut BTreeSet<&'r str>,
) -> Result<(), AllocError>
    ensures { OnOk result ((q : List ℕ)
        → has_id ids.new q ≡ (has_id ids.old q || list_any (λ argument. argument) (map (refers q) expressions.now))) }
{
    for expression in expressions {
        note(expression, ids)?;
    }
    Ok(())
}

/// The variables to which a definition refers; one that can't be read refers to none.
fn noted(
    alloc: Global,
    definition: &Option<RawVariableDefinition>,
) -> Result<BTreeSet<&str>, AllocError>
    ensures { IfOk result (λ ids. (q : List ℕ) → has_id ids q ≡ refers_to q definition.now) }
{
    let mut ids = BTreeSet::new(alloc);
    if let Some(definition) = definition {
        note(&definition.expression, &mut ids)?;
    }
    Ok(ids)
}

/// For each definition the variables to which it refers.
fn each_noted(
    alloc: Global,
    definitions: &[Option<RawVariableDefinition>],
) -> Result<Vec<BTreeSet<&str>>, AllocError>
    ensures { IfOk result (λ all. (q : List ℕ)
        → map (λ ids. has_id ids q) all.items ≡ map (refers_to q) definitions.now) }
{
    let mut all = Vec::with_capacity(alloc, definitions.len())?;
    for definition in definitions {
        all.push(noted(alloc, definition)?)?;
    }
    Ok(all)
}

/// Puts a number last, if it is to be.
fn put(row: &mut Vec<usize>, number: usize, is_wanted: bool) -> Result<(), AllocError>
    ensures { OnOk result (row.new.items ≡ row.old.items ++ (if is_wanted then number ∷ [] else [])) }
{
    if is_wanted {
        row.push(number)?;
    }
    Ok(())
}

/// The numbers of the definitions that refer to the variable.
fn referring_to(alloc: Global, noted: &[BTreeSet<&str>], id: &str) -> Result<Vec<usize>, AllocError>
    ensures { IfOk result (λ row. row.items ≡ numbers_of (λ ids. has_id ids id.now) 0 noted.now) }
{
    let mut row = Vec::new(alloc);
    for (number, ids) in noted.iter().enumerate() {
        put(&mut row, number, ids.contains(id))?;
    }
    Ok(row)
}

/// The numbers of the definitions that refer to the variable of one of them.
fn referring(
    alloc: Global,
    noted: &[BTreeSet<&str>],
    definition: &Option<RawVariableDefinition>,
) -> Result<Vec<usize>, AllocError>
    ensures { IfOk result (λ row. row.items ≡ by_noted noted.now definition.now) }
{
    match definition {
        None => Ok(Vec::new(alloc)),
        Some(definition) => referring_to(alloc, noted, definition.id.as_str()),
    }
}

/// For each definition the numbers of those that refer to its variable.
fn rows_of(
    alloc: Global,
    definitions: &[Option<RawVariableDefinition>],
) -> Result<Vec<Vec<usize>>, AllocError>
    ensures { IfOk result (λ rows. map (λ row. row.items) rows.items ≡ map (referring definitions.now) definitions.now) }
{
    let noted = each_noted(alloc, definitions)?;
    let mut rows = Vec::with_capacity(alloc, definitions.len())?;
    for definition in definitions {
        rows.push(referring(alloc, noted.as_slice(), definition)?)?;
    }
    Ok(rows)
}

/// For each definition the numbers of those that refer to its variable.
pub(crate) fn links<J: JsonTree>(
    alloc: Global,
    definitions: &[J],
) -> Result<Vec<Vec<usize>>, AllocError>
    ensures { IfOk result (λ rows. map (λ row. row.items) rows.items ≡ links (map J.content definitions.now)) }
{
    let read = read_all(alloc, definitions)?;
    rows_of(alloc, read.as_slice())
}

/// Whether the definition of that number is led to.
fn is_led(led: &[bool], number: usize) -> bool
    ensures { result ≡ get_or led.now number false }
{
    match led.get(number) {
        Some(is_led) => *is_led,
        None => false,
    }
}

/// Whether one of the definitions of these numbers is led to.
fn is_one_led(led: &[bool], row: &[usize]) -> bool
    ensures { result ≡ list_any (λ number. get_or led.now number false) row.now }
{
    for number in row {
        if is_led(led, *number) {
            return true;
        }
    }
    false
}

/// Whether a definition is led to, or one of those that refer to it is.
fn is_reached(led: &[bool], is_led: bool, row: &Vec<usize>) -> bool
    ensures { result ≡ is_reached_by led.now (is_led, row.now) }
{
    is_led || is_one_led(led, row.as_slice())
}

/// What is led to in one step more.
fn further(alloc: Global, rows: &[Vec<usize>], led: &[bool]) -> Result<Vec<bool>, AllocError>
    ensures { IfOk result (λ next. next.items ≡ map (is_reached_by led.now) (zip led.now rows.now)) }
{
    let mut next = Vec::with_capacity(alloc, led.len())?;
    for (is_led, row) in led.iter().zip(rows) {
        next.push(is_reached(led, *is_led, row))?;
    }
    Ok(next)
}

/// Each definition as read, if it can be.
fn read_all<J: JsonTree>(
    alloc: Global,
    definitions: &[J],
) -> Result<Vec<Option<RawVariableDefinition>>, AllocError>
    ensures { IfOk result (λ all. all.items ≡ map (λ d. readable (definition_of d)) (map J.content definitions.now)) }
{
    let mut all = Vec::with_capacity(alloc, definitions.len())?;
    for json in definitions {
        match raw_definition(alloc, json) {
            Ok(definition) => all.push(Some(definition))?,
            Err(CheckFault::Doc(_)) => all.push(None)?,
            Err(CheckFault::Memory) => return Err(AllocError),
        }
    }
    Ok(all)
}

/// The definition of that number alone.
fn only<J: JsonTree>(
    alloc: Global,
    number: usize,
    definitions: &[J],
) -> Result<Vec<bool>, AllocError>
    ensures { IfOk result (λ led. led.items ≡ only number (map J.content definitions.now)) }
{
    let mut led = Vec::with_capacity(alloc, definitions.len())?;
    for _ in definitions {
        led.push(false)?;
    }
    if let Some(own) = led.get_mut(number) {
        *own = true;
    }
    Ok(led)
}

/// To which definitions the one of that number leads, where it is known which refer to which.
#[tactic(auto, unfolding(crate::specs::Led::led))]
pub(crate) fn led<J: JsonTree>(
    alloc: Global,
    definitions: &[J],
    rows: &[Vec<usize>],
    number: usize,
) -> Result<Vec<bool>, AllocError>
    requires { map (λ row. row.items) rows.now ≡ links (map J.content definitions.now) }
    ensures { IfOk result (λ all. all.items ≡ led (map J.content definitions.now) number) }
{
    let mut all = only(alloc, number, definitions)?;
    for _ in 0..definitions.len() {
        let next = further(alloc, rows, all.as_slice())?;
        if next == all {
            return Ok(all);
        }
        all = next;
    }
    Ok(all)
}
