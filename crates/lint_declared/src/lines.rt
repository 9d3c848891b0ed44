//! Lines of commands, and what is wrong with them where attributes are declared.

ghost use Rattle.std.specs.Prelude.{◌≡◌, ◌++◌, [], IfOk, OnOk, Some, bytes_eq, map, option_map};
ghost use Rattle.std.specs.List.{list_any};
ghost use Rattle.serde_json.specs.View.{items_of};
ghost use Rattle.lint_declared.specs.Lines.{bad_value_from, fault_of, fault_of_claim, fault_of_data, fault_of_known};
ghost use Rattle.lint_declared.specs.Lines.{fault_of_listing, fault_of_name, fault_of_set, fault_of_setting, faults_in};
ghost use Rattle.lint_declared.specs.Lines.{is_bad_value, is_set_as, is_warning, with_fault};
ghost use Rattle.lint_declared.specs.Settings.{setting_of};
ghost use Rattle.lint_declared.specs.proofs_only.Claims.{claimed_in};
ghost use Rattle.lint_declared.specs.proofs_only.Settings.{setting_view};

use crate::attribute::DeclaredAttribute;
use crate::claim::{Claim, note_line, said_by};
use crate::known::{DeclaredValues, with_sets};
use crate::listed::{Listed, ListedName, category_listed};
use crate::setting::{Setting, is_setting, setting_of};
use crate::stray::{is_foreign, value_in};
use ent_json::{JsonTree, read_json, text_at};
use ent_policy::is_bad_name;
use ent_values::Text;
use json::Scratch;
use std::alloc::{AllocError, Global};
use std::collections::BTreeMap;

/// What is wrong with a line.
#[derive(Drop)]
pub enum LineFault {
    /// It isn't JSON.
    NotJson,
    /// It is no object with a text at `do`.
    NoCommand,
    /// There is no command with this word.
    Unknown(Text),
    /// It lists a name, and has none.
    NoName,
    /// The name that it lists is empty or has more than 256 bytes.
    BadName(ListedName),
    /// It is an `attr.set` that can't be read.
    Form,
    /// It sets values of an attribute that isn't declared.
    Undeclared(DeclaredAttribute),
    /// Its value of that number, from 0 on, isn't one of the attribute's type, or isn't among those that are listed.
    Value(DeclaredAttribute, usize),
    /// It sets values for a name that isn't listed.
    Unlisted(ListedName),
    /// It says what the line of that number says already.
    Again(Claim, usize),
}

impl LineFault {
    /// Whether the line may be meant so: it gives a row other values than a line before it.
    ///
    /// Its contract is an equation.
    pub fn is_warning(&self) -> bool
        ensures { result ≡ is_warning self.now }
    {
        matches!(self, LineFault::Again(Claim::Values(_), _))
    }
}

/// A line with a fault.
#[derive(Drop)]
pub struct FaultyLine {
    /// The number of the line, from 1 on.
    pub number: usize,
    pub fault: LineFault,
}

/// Whether an attribute is declared as it is set: with the same issuer, or without one.
fn is_set_as(set: &DeclaredAttribute, declared: &DeclaredAttribute) -> bool
    ensures { result ≡ is_set_as set.now declared.now }
{
    set.finds(declared) && declared.finds(set)
}

/// Whether one of the attributes is declared as this one is set.
fn is_declared(attributes: &[DeclaredValues<'_>], set: &DeclaredAttribute) -> bool
    ensures { result ≡ list_any (is_set_as set.now) attributes.now }
{
    attributes
        .iter()
        .any(|known| is_set_as(set, known.attribute()))
}

/// Whether a value isn't one of the attribute's type, or isn't among those that are listed.
fn is_bad_value<J: JsonTree>(
    alloc: Global,
    attributes: &[DeclaredValues<'_>],
    set: &DeclaredAttribute,
    json: &J,
) -> Result<bool, AllocError>
    ensures { IfOk result (λ b. b ≡ is_bad_value attributes.now set.now (J.content json.now)) }
{
    match value_in(alloc, set.datatype, json)? {
        None => Ok(true),
        Some(value) => Ok(is_foreign(attributes, set, &value)),
    }
}

/// The number of the first such value.
fn bad_value<J: JsonTree>(
    alloc: Global,
    attributes: &[DeclaredValues<'_>],
    set: &DeclaredAttribute,
    values: &[J],
) -> Result<Option<usize>, AllocError>
    ensures { IfOk result (λ o. o ≡ bad_value_from attributes.now set.now 0 (items_of (map J.content values.now))) }
{
    for (number, value) in values.iter().enumerate() {
        if is_bad_value(alloc, attributes, set, value)? {
            return Ok(Some(number));
        }
    }
    Ok(None)
}

/// What is wrong with what a line sets.
fn fault_of_setting<J: JsonTree>(
    alloc: Global,
    attributes: &[DeclaredValues<'_>],
    listed: &Listed,
    setting: Setting<'_, J>,
) -> Result<Option<LineFault>, AllocError>
    ensures { IfOk result (λ o. o ≡ fault_of_setting attributes.now listed.now (setting_view J.content setting.entry)) }
{
    if !is_declared(attributes, &setting.attribute) {
        return Ok(Some(LineFault::Undeclared(setting.attribute)));
    }
    if let Some(number) = bad_value(alloc, attributes, &setting.attribute, setting.values)? {
        return Ok(Some(LineFault::Value(setting.attribute, number)));
    }
    let category = setting.attribute.category.copy(alloc)?;
    let name = ListedName {
        category,
        name: setting.entity,
    };
    if listed.has(&name) {
        return Ok(None);
    }
    Ok(Some(LineFault::Unlisted(name)))
}

/// What is wrong with a line of `attr.set`.
fn fault_of_set<J: JsonTree>(
    alloc: Global,
    attributes: &[DeclaredValues<'_>],
    listed: &Listed,
    line: &J,
) -> Result<Option<LineFault>, AllocError>
    ensures { IfOk result (λ o. o ≡ fault_of_set attributes.now listed.now (setting_of (J.content line.now))) }
{
    match setting_of(alloc, line)? {
        None => Ok(Some(LineFault::Form)),
        Some(setting) => fault_of_setting(alloc, attributes, listed, setting),
    }
}

/// What is wrong with the name that a line lists in a category.
fn fault_of_name(
    alloc: Global,
    category: &str,
    name: Option<&str>,
) -> Result<Option<LineFault>, AllocError>
    ensures { IfOk result (λ o. o ≡ fault_of_name category.now (option_map (λ n. n.now) name.entry)) }
{
    let Some(name) = name else {
        return Ok(Some(LineFault::NoName));
    };
    if !is_bad_name(name) {
        return Ok(None);
    }
    Ok(Some(LineFault::BadName(ListedName {
        category: Text::from_str(alloc, category)?,
        name: Text::from_str(alloc, name)?,
    })))
}

/// What is wrong with a line that may list a name.
fn fault_of_listing<J: JsonTree>(alloc: Global, line: &J) -> Result<Option<LineFault>, AllocError>
    ensures { IfOk result (λ o. o ≡ fault_of_listing (J.content line.now)) }
{
    match text_at(line, "do").and_then(category_listed) {
        None => Ok(None),
        Some(category) => fault_of_name(alloc, category, text_at(line, "name")),
    }
}

/// What a line says, if a line before it says it too and it stands.
fn fault_of_claim(claims: &BTreeMap<Claim, usize>, said: Option<(Claim, bool)>) -> Option<LineFault>
    ensures { result ≡ fault_of_claim (claimed_in claims.now) said }
{
    match said {
        Some((claim, true)) => match claims.get(&claim) {
            None => None,
            Some(number) => Some(LineFault::Again(claim, *number)),
        },
        _ => None,
    }
}

/// What is wrong with a line whose command there is.
fn fault_of_known<J: JsonTree>(
    alloc: Global,
    attributes: &[DeclaredValues<'_>],
    listed: &Listed,
    claims: &BTreeMap<Claim, usize>,
    line: &J,
) -> Result<Option<LineFault>, AllocError>
    ensures { IfOk result (λ o. o
        ≡ fault_of_known attributes.now listed.now (claimed_in claims.now) (J.content line.now)) }
{
    let fault = if is_setting(line) {
        fault_of_set(alloc, attributes, listed, line)?
    } else {
        fault_of_listing(alloc, line)?
    };
    if fault.is_some() {
        return Ok(fault);
    }
    Ok(fault_of_claim(claims, said_by(alloc, line)?))
}

/// Whether there is a command with this word.
fn is_known(commands: &[&str], word: &str) -> bool
    ensures { result ≡ list_any (bytes_eq word.now) (map (λ c. c.now) commands.now) }
{
    commands.iter().any(|command| word == *command)
}

/// What is wrong with the JSON of a line.
fn fault_of_data<J: JsonTree>(
    alloc: Global,
    commands: &[&str],
    attributes: &[DeclaredValues<'_>],
    listed: &Listed,
    claims: &BTreeMap<Claim, usize>,
    line: &J,
) -> Result<Option<LineFault>, AllocError>
    ensures { IfOk result (λ o. o ≡ fault_of_data (map (λ c. c.now) commands.now) attributes.now listed.now
        (claimed_in claims.now) (Some (J.content line.now))) }
{
    let Some(word) = text_at(line, "do") else {
        return Ok(Some(LineFault::NoCommand));
    };
    if is_known(commands, word) {
        return fault_of_known(alloc, attributes, listed, claims, line);
    }
    Ok(Some(LineFault::Unknown(Text::from_str(alloc, word)?)))
}

/// What is wrong with a line.
fn fault_of(
    alloc: Global,
    commands: &[&str],
    attributes: &[DeclaredValues<'_>],
    listed: &Listed,
    claims: &BTreeMap<Claim, usize>,
    line: &[u8],
) -> Result<Option<LineFault>, AllocError>
    ensures { IfOk result (λ o. o ≡ fault_of (map (λ c. c.now) commands.now) attributes.now listed.now
        (claimed_in claims.now) line.now) }
{
    if line.is_empty() {
        return Ok(None);
    }
    let mut scratch = Scratch::new(alloc);
    match read_json(alloc, line, &mut scratch)? {
        None => Ok(Some(LineFault::NotJson)),
        Some(json) => fault_of_data(alloc, commands, attributes, listed, claims, &json),
    }
}

/// Puts a line of that number last, if it has a fault.
fn put_fault(
    all: &mut Vec<FaultyLine>,
    number: usize,
    fault: Option<LineFault>,
) -> Result<(), AllocError>
    ensures { OnOk result (all.new.items ≡ all.old.items ++ with_fault number fault []) }
{
    if let Some(fault) = fault {
        all.push(FaultyLine { number, fault })?;
    }
    Ok(())
}

/// The lines with which something is wrong, by attributes with their sets.
fn faulty_among(
    alloc: Global,
    commands: &[&str],
    attributes: &[DeclaredValues<'_>],
    listed: &Listed,
    lines: &[&[u8]],
) -> Result<Vec<FaultyLine>, AllocError>
    ensures { IfOk result (λ all. all.items
        ≡ faults_in (map (λ c. c.now) commands.now) attributes.now listed.now (map (λ l. l.now) lines.now)) }
{
    let mut all = Vec::new(alloc);
    let mut claims = BTreeMap::new(alloc);
    for (index, line) in lines.iter().enumerate() {
        let number = index + 1;
        let fault = fault_of(alloc, commands, attributes, listed, &claims, line)?;
        put_fault(&mut all, number, fault)?;
        note_line(alloc, &mut claims, number, line)?;
    }
    Ok(all)
}

/// The lines with which something is wrong, with what is first wrong with each: it isn't JSON, it has none of these
/// commands, a name that it lists isn't one, its `attr.set` can't be read, sets what isn't declared so or is for a name
/// that isn't listed, or it says what a line before it says already. An empty line counts for nothing.
///
/// # Errors
///
/// `AllocError` if memory runs out.
///
/// Its contract is an equation but for memory.
pub fn faulty_lines(
    alloc: Global,
    commands: &[&str],
    attributes: &[DeclaredAttribute],
    listed: &Listed,
    lines: &[&[u8]],
) -> Result<Vec<FaultyLine>, AllocError>
    ensures { IfOk result (λ all. all.items
        ≡ faults_in (map (λ c. c.now) commands.now) attributes.now listed.now (map (λ l. l.now) lines.now)) }
{
    let known = with_sets(alloc, attributes)?;
    faulty_among(alloc, commands, known.as_slice(), listed, lines)
}
