//! The variable definitions around a part of a document.

ghost use Rattle.std.specs.Prelude.{◌≡◌, [], IfOk, None, Some, false, get_or, map, option_map, slice_set, true};
ghost use Rattle.std.specs.Option.{option_copied};
ghost use Rattle.ent_policy.specs.Gives.{Gives};
ghost use Rattle.lint_places.specs.Led.{links};
ghost use Rattle.lint_places.specs.Places.{listed};
ghost use Rattle.lint_places.specs.Told.{id_or_dash, nowhere, set_aside, standing_with, standing_without};
ghost use Rattle.lint_places.specs.Told.{variable_at, variables_in, variables_of};
ghost use Rattle.lint_places.specs.Views.{scope_of};
ghost use Rattle.lint_places.specs.proofs_only.Clear.{bare};

use crate::led::led;
use crate::members::listed;
use ent_json::{JsonTree, text_at};
use ent_polform::raw_definition;
use ent_policy::{
    CheckFault, RawExpression, RawLiteral, RawValue, RawVariableDefinition, is_bad_name,
};
use ent_values::{Items, Text};
use std::alloc::{AllocError, Global};

/// The variable definitions of the policy around a part, of which one may be set aside: the one that the part belongs
/// to. Then those to which it doesn't lead are set aside too. One that is set aside isn't looked into.
#[derive(Drop)]
pub struct Scope<'a, J> {
    /// The definitions as they stand in the policy.
    pub definitions: &'a [J],
    /// The number of the one that is set aside.
    pub aside: Option<usize>,
    /// Which of them stand; what is behind the end of the list stands.
    pub standing: Vec<bool>,
    /// Whether the fault that is looked for is known to have nothing to do with what they say.
    pub(crate) clear: bool,
}

/// A copy of some flags.
fn copied(alloc: Global, flags: &[bool]) -> Result<Vec<bool>, AllocError>
    ensures { IfOk result (λ v. v.items ≡ flags.now) }
{
    let mut all = Vec::with_capacity(alloc, flags.len())?;
    for flag in flags {
        all.push(*flag)?;
    }
    Ok(all)
}

/// A copy of some flags, with another of that number, if there is one.
fn with_flag(
    alloc: Global,
    flags: &[bool],
    number: usize,
    flag: bool,
) -> Result<Vec<bool>, AllocError>
    ensures { IfOk result (λ v. v.items ≡ slice_set flags.now number flag) }
{
    let mut all = copied(alloc, flags)?;
    if let Some(own) = all.get_mut(number) {
        *own = flag;
    }
    Ok(all)
}

impl<'a, J: JsonTree> Scope<'a, J> {
    /// The scope of what stands in no policy.
    ///
    /// Its contract is an equation.
    pub(crate) fn nowhere(alloc: Global) -> Scope<'a, J>
        ensures scope { scope_of J.content result ≡ nowhere }
        ensures clear { result.clear ≡ false }
    {
        Scope {
            definitions: &[],
            aside: None,
            standing: Vec::new(alloc),
            clear: false,
        }
    }

    /// The scope of the definitions that this array has; without one it has none.
    pub(crate) fn of(alloc: Global, json: Option<&'a J>) -> Scope<'a, J>
        ensures scope { scope_of J.content result ≡ record {
          definitions = listed (option_map J.content (option_copied json.entry));
          aside = None;
          standing = [];
        } }
        ensures clear { result.clear ≡ false }
    {
        Scope {
            definitions: listed(json),
            aside: None,
            standing: Vec::new(alloc),
            clear: false,
        }
    }

    /// The scope around what belongs to the definition of that number, where it is known which refer to which.
    pub(crate) fn around(
        alloc: Global,
        definitions: &'a [J],
        rows: &[Vec<usize>],
        number: usize,
    ) -> Result<Scope<'a, J>, AllocError>
        requires { map (λ row. row.items) rows.now ≡ links (map J.content definitions.now) }
        ensures scope { IfOk result (λ s. scope_of J.content s ≡ record {
          definitions = map J.content definitions.now;
          aside = Some number;
          standing = standing_without (map J.content definitions.now) number;
        }) }
        ensures clear { IfOk result (λ s. s.clear ≡ false) }
    {
        let led = led(alloc, definitions, rows, number)?;
        Ok(Scope {
            definitions,
            aside: Some(number),
            standing: with_flag(alloc, led.as_slice(), number, false)?,
            clear: false,
        })
    }

    /// A copy of the scope.
    ///
    /// # Errors
    ///
    /// `AllocError` if memory runs out.
    ///
    /// Its contract is an equation but for memory.
    pub(crate) fn copied(&self, alloc: Global) -> Result<Scope<'a, J>, AllocError>
        ensures same { IfOk result (λ s. scope_of J.content s ≡ scope_of J.content self.now) }
        ensures clear { IfOk result (λ s. s.clear ≡ self.now.clear) }
    {
        Ok(Scope {
            definitions: self.definitions,
            aside: self.aside,
            standing: copied(alloc, self.standing.as_slice())?,
            clear: self.clear,
        })
    }

    /// A scope with these definitions, of which none is looked into, but each has its name.
    pub(crate) fn bare(&self, alloc: Global) -> Result<Scope<'a, J>, AllocError>
        ensures { IfOk result (λ s. scope_of J.content s ≡ bare (scope_of J.content self.now)) }
    {
        let mut standing = Vec::with_capacity(alloc, self.definitions.len())?;
        for _ in self.definitions {
            standing.push(false)?;
        }
        Ok(Scope {
            definitions: self.definitions,
            aside: None,
            standing,
            clear: false,
        })
    }

    /// Which definitions stand together with the one that is set aside.
    fn standing_with(&self, alloc: Global) -> Result<Vec<bool>, AllocError>
        ensures { IfOk result (λ all. all.items ≡ standing_with self.now.aside self.now.standing.items) }
    {
        let standing = self.standing.as_slice();
        match self.aside {
            None => copied(alloc, standing),
            Some(number) => with_flag(alloc, standing, number, true),
        }
    }

    /// The variables of the scope, as read.
    #[tactic(auto, unfolding(crate::specs::Told::variables_in))]
    pub(crate) fn variables(
        &self,
        alloc: Global,
    ) -> Result<Items<RawVariableDefinition>, CheckFault>
        ensures { Gives result (variables_in (scope_of J.content self.now)) }
    {
        variables_of(alloc, self.standing.as_slice(), self.definitions)
    }

    /// The definition that is set aside and those to which it leads, as read, and no other.
    pub(crate) fn definition(
        &self,
        alloc: Global,
    ) -> Result<Items<RawVariableDefinition>, CheckFault>
        ensures { Gives result (variables_of (standing_with self.now.aside self.now.standing.items)
            (map J.content self.now.definitions.now)) }
    {
        let standing = self.standing_with(alloc)?;
        variables_of(alloc, standing.as_slice(), self.definitions)
    }
}

/// Whether the definition of that number stands.
fn stands(standing: &[bool], number: usize) -> bool
    ensures { result ≡ get_or standing.now number true }
{
    match standing.get(number) {
        Some(stands) => *stands,
        None => true,
    }
}

/// The definition of that number, as read; one that doesn't stand is set aside.
fn variable<J: JsonTree>(
    alloc: Global,
    standing: &[bool],
    number: usize,
    json: &J,
) -> Result<RawVariableDefinition, CheckFault>
    ensures { Gives result (variable_at standing.now number (J.content json.now)) }
{
    if stands(standing, number) {
        raw_definition(alloc, json)
    } else {
        Ok(set_aside(alloc, json)?)
    }
}

/// Some definitions as read, by which of them stand.
#[tactic(auto, unfolding(crate::specs::Told::variables_of))]
fn variables_of<J: JsonTree>(
    alloc: Global,
    standing: &[bool],
    definitions: &[J],
) -> Result<Items<RawVariableDefinition>, CheckFault>
    ensures { Gives result (variables_of standing.now (map J.content definitions.now)) }
{
    let mut all = Items::with_capacity(alloc, definitions.len())?;
    for (number, json) in definitions.iter().enumerate() {
        all.push(variable(alloc, standing, number, json)?)?;
    }
    Ok(all)
}

/// A definition that isn't looked into.
#[tactic(auto, unfolding(crate::specs::Told::set_aside))]
fn set_aside<J: JsonTree>(alloc: Global, json: &J) -> Result<RawVariableDefinition, AllocError>
    ensures { IfOk result (λ v. v ≡ set_aside (J.content json.now)) }
{
    let id = Text::from_str(alloc, id_or_dash(text_at(json, "VariableId")))?;
    let expression = RawExpression::Value(RawValue {
        datatype: None,
        literal: RawLiteral::Boolean(true),
    });
    Ok(RawVariableDefinition { id, expression })
}

/// The id, or a dash where it can't be one.
fn id_or_dash(id: Option<&str>) -> &str
    ensures { result.now ≡ id_or_dash (option_copied id.entry) }
{
    match id {
        Some(id) if !is_bad_name(id) => id,
        _ => "-",
    }
}
