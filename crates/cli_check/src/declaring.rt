//! `review check --attributes`: documents that may ask for no attributes but those that a file declares.

ghost use Rattle.std.specs.Prelude.{◌≡◌, IfOk, IfSome, Some, option_map, string_bytes, true};
ghost use Rattle.ent_json.specs.Line.{data_of};
ghost use Rattle.lint_places.specs.Places.{whole};
ghost use Rattle.cli_check.specs.Checking.{Judges, is_passed, verdict_in, verdict_of};
ghost use Rattle.cli_check.specs.Declaring.{AsksDeclared, TellsUndeclared, declared_of, seen};

use crate::checking::{CheckResult, FILE_LIMIT, is_passed, judge, write_verdict};
use ent_json::read_json;
use ent_values::Items;
use ent_wire::ServeFault;
use json::{Scratch, Value};
use lint_declared::{
    AttributeFault, AttributesFault, DECLARED_KEYS, DeclaredAttribute, read_attributes, undeclared,
};
use lint_messages::{explain_text, line_and_column};
use std::alloc::{AllocError, Global};
use std::io::Write;

/// Why a file of declared attributes can't be used.
#[derive(Clone, Copy, Debug, PartialEq, Eq)]
pub enum DeclaredFault {
    /// It has more than `FILE_LIMIT` bytes.
    TooLong,
    /// It isn't JSON.
    NotJson,
    /// Its JSON isn't a list of attributes, by this fault.
    Attributes(AttributesFault),
}

/// What a file of declared attributes comes to.
#[derive(Drop)]
pub(crate) enum Declared {
    /// It declares these; those that each request has stand first.
    Attributes(Items<DeclaredAttribute>),
    /// It can't be used, by this fault; and where in it what is wrong, if that can be said.
    Refused(DeclaredFault, Option<String>),
}

/// The first key of an object that isn't one of these.
fn other_key<'v>(json: &'v Value<'_>, keys: &[&str]) -> Option<&'v str> {
    let Value::Object(members) = json else {
        return None;
    };
    for member in members {
        if !keys.iter().any(|key| *key == member.0) {
            return Some(member.0);
        }
    }
    None
}

/// The key by which a file of declared attributes has this fault, if it has it by a key that it may not have.
fn foreign_key<'v>(json: &'v Value<'_>, fault: AttributesFault) -> Option<&'v str> {
    match fault {
        AttributesFault::NoList => other_key(json, &["Attributes"]),
        AttributesFault::Member(number, AttributeFault::Form) => {
            other_key(json.get("Attributes")?.at(number)?, &DECLARED_KEYS)
        }
        AttributesFault::Member(_, _) => None,
    }
}

/// The place of such a key, as far as it can be followed.
fn key_pointer(alloc: Global, fault: AttributesFault, key: &str) -> Result<String, AllocError> {
    match fault {
        AttributesFault::NoList => format!(in alloc; "/{key}"),
        AttributesFault::Member(number, _) => format!(in alloc; "/Attributes/{number}/{key}"),
    }
}

/// Where in a file of declared attributes which fault stands.
fn told_fault(
    alloc: Global,
    bytes: &[u8],
    json: &Value<'_>,
    fault: AttributesFault,
) -> Result<Option<String>, AllocError> {
    if let Some(key) = foreign_key(json, fault) {
        let pointer = key_pointer(alloc, fault, key)?;
        let position = line_and_column(alloc, bytes, pointer.as_str())?;
        let position = Some((position.line, position.column));
        return Ok(Some(fault.told_of_key(alloc, key, position)?));
    }
    let pointer = fault.pointer(alloc)?;
    let position = line_and_column(alloc, bytes, pointer.as_str())?;
    let told = fault.told(alloc, Some((position.line, position.column)))?;
    Ok(Some(told))
}

/// The attributes that the bytes of a file declare, or why they don't.
#[tactic(auto, unfolding(crate::specs::Declaring::declared_of))]
pub(crate) fn declared_in(alloc: Global, bytes: &[u8]) -> Result<Declared, AllocError>
    ensures { IfOk result (λ d. seen d ≡ declared_of bytes.now) }
{
    if bytes.len() > FILE_LIMIT {
        return Ok(Declared::Refused(DeclaredFault::TooLong, None));
    }
    let mut scratch = Scratch::new(alloc);
    let Some(json) = read_json(alloc, bytes, &mut scratch)? else {
        let told = explain_text(alloc, bytes)?;
        return Ok(Declared::Refused(DeclaredFault::NotJson, Some(told)));
    };
    match read_attributes(alloc, &json)? {
        Ok(attributes) => Ok(Declared::Attributes(attributes)),
        Err(fault) => {
            let told = told_fault(alloc, bytes, &json, fault)?;
            Ok(Declared::Refused(DeclaredFault::Attributes(fault), told))
        }
    }
}

/// Where a document first asks for an attribute that isn't declared, and for which.
pub(crate) fn told_undeclared(
    alloc: Global,
    bytes: &[u8],
    attributes: &[DeclaredAttribute],
) -> Result<Option<String>, AllocError>
    ensures { IfOk result (λ told. IfSome (data_of bytes.now)
        (λ d. TellsUndeclared attributes.now (whole d) (option_map string_bytes told))) }
{
    let mut scratch = Scratch::new(alloc);
    let Some(json) = read_json(alloc, bytes, &mut scratch)? else {
        return Ok(None);
    };
    let Some(found) = undeclared(alloc, &json, attributes)? else {
        return Ok(None);
    };
    let position = line_and_column(alloc, bytes, found.pointer.as_str())?;
    let told = found.told(alloc, attributes, Some((position.line, position.column)))?;
    Ok(Some(told))
}

/// The verdict on the bytes of a file, and what is told of it where these attributes are declared: of a document that
/// may be stored, where it first asks for another one.
fn judge_declared(
    alloc: Global,
    bytes: &[u8],
    attributes: &[DeclaredAttribute],
    wants_place: bool,
) -> Result<CheckResult, AllocError>
    ensures verdict { IfOk result (λ j. j.verdict ≡ verdict_of bytes.now) }
    ensures declared { is_passed (verdict_of bytes.now) ≡ true
        → IfOk result (λ j. AsksDeclared attributes.now (data_of bytes.now) j) }
{
    let judged = judge(alloc, bytes, wants_place)?;
    if !is_passed(&judged.verdict) {
        return Ok(judged);
    }
    let told = told_undeclared(alloc, bytes, attributes)?;
    Ok(CheckResult {
        verdict: judged.verdict,
        told,
        document: judged.document,
    })
}

/// Writes the line of the verdict on the bytes of a file, as `check` does, flushes the writer, and gives the verdict
/// and what is told of it where these attributes are declared; where a file that is refused is wrong, if it is wanted.
pub(crate) fn check_declared<W: Write>(
    alloc: Global,
    bytes: &[u8],
    attributes: &[DeclaredAttribute],
    wants_place: bool,
    writer: &mut W,
) -> Result<CheckResult, ServeFault>
    ensures judges { Judges (Some bytes.now) (W.contents writer.old) (W.contents writer.new) (verdict_in result) }
    ensures declared { is_passed (verdict_of bytes.now) ≡ true
        → IfOk result (λ j. AsksDeclared attributes.now (data_of bytes.now) j) }
{
    let Ok(judged) = judge_declared(alloc, bytes, attributes, wants_place) else {
        return Err(ServeFault::Memory);
    };
    write_verdict(writer, &judged.verdict)?;
    Ok(judged)
}
