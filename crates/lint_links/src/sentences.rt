//! What is said of documents that are stored together.

use crate::held::Held;
use crate::links::Links;
use crate::missing::{namesakes, turned};
use ent_policy::{DocKey, Kind, Reference, VersionConstraints, VersionMatch};
use std::alloc::{AllocError, Global};

/// So many versions of a document, or documents, are named at most.
const MOST_VERSIONS: usize = 8;

/// So many documents on a way are named at most.
const MOST_STEPS: usize = 16;

/// No numbers.
const NONE: &[usize] = &[];

/// The key of a reference to a document of that kind.
fn reference_key(kind: Kind) -> &'static str {
    match kind {
        Kind::Policy => "PolicyIdReference",
        Kind::PolicySet => "PolicySetIdReference",
    }
}

/// Puts a constraint behind a text, if it is there.
fn put_constraint(
    alloc: Global,
    text: &mut String,
    constraint: &Option<VersionMatch>,
    word: &str,
) -> Result<(), AllocError> {
    if let Some(constraint) = constraint {
        let pattern = constraint.text(alloc)?;
        text.push_str(if text.is_empty() { " meets " } else { " and " })?;
        text.push_str(pattern.as_str())?;
        text.push_str(word)?;
    }
    Ok(())
}

/// What a version has to meet, or nothing where it may be any.
fn wanted(alloc: Global, constraints: &VersionConstraints) -> Result<String, AllocError> {
    let mut text = String::new(alloc);
    put_constraint(alloc, &mut text, &constraints.version, "")?;
    put_constraint(alloc, &mut text, &constraints.earliest, " or later")?;
    put_constraint(alloc, &mut text, &constraints.latest, " or earlier")?;
    Ok(text)
}

/// The versions of these keys, the last of them first, at most eight.
fn versions(alloc: Global, keys: &[&DocKey]) -> Result<String, AllocError> {
    let mut text = String::new(alloc);
    for key in keys.iter().rev().take(MOST_VERSIONS) {
        let version = key.version.text(alloc)?;
        if !text.is_empty() {
            text.push_str(", ")?;
        }
        text.push_str(version.as_str())?;
    }
    if keys.len() > MOST_VERSIONS {
        text.push_str(", ..")?;
    }
    Ok(text)
}

/// What is said of a reference that finds none of the documents: what it asks for, and what is stored under its id.
///
/// # Errors
///
/// `AllocError` if memory runs out.
///
/// Its contract leaves open: all of it: the sentence is shown by the stored run `lint_told`.
pub fn unfound_sentence(
    alloc: Global,
    all: &[Held<'_>],
    reference: &Reference,
) -> Result<String, AllocError> {
    let (kind, id) = (reference.kind.word(), reference.id.as_str());
    let keys = namesakes(alloc, all, reference)?;
    if !keys.is_empty() {
        let wanted = wanted(alloc, &reference.constraints)?;
        let versions = versions(alloc, keys.as_slice())?;
        return format!(in alloc; "no {kind} {id}{wanted}; stored: {versions}");
    }
    let turned = turned(alloc, reference)?;
    let others = namesakes(alloc, all, &turned)?;
    if others.is_empty() {
        return format!(in alloc; "no {kind} {id} is stored");
    }
    let (kind_there, key) = (turned.kind.word(), reference_key(turned.kind));
    let versions = versions(alloc, others.as_slice())?;
    format!(in alloc;
        "no {kind} {id} is stored; a {kind_there} {id} is: {versions}; `{key}` names that"
    )
}

/// A document as it is named: its kind, its id and its version.
///
/// # Errors
///
/// `AllocError` if memory runs out.
///
/// Its contract leaves open: all of it: the name is shown by the stored run `lint_told`.
pub fn named(alloc: Global, key: &DocKey) -> Result<String, AllocError> {
    let (kind, id) = (key.kind.word(), key.id.as_str());
    let version = key.version.text(alloc)?;
    let version = version.as_str();
    format!(in alloc; "{kind} {id} {version}")
}

/// The first of these numbers at which a flag is set.
fn first_set(flags: &[bool], row: &[usize]) -> Option<usize> {
    for number in row {
        if let Some(true) = flags.get(*number) {
            return Some(*number);
        }
    }
    None
}

/// The documents to which a document leads, one behind the other, at each the first whose flag is set, up to one that
/// was there before.
fn way(
    alloc: Global,
    all: &[Held<'_>],
    links: &Links,
    flags: &[bool],
    from: usize,
) -> Result<String, AllocError> {
    let mut text = String::new(alloc);
    let mut seen = Vec::new(alloc);
    let mut at = from;
    for _ in 0..MOST_STEPS {
        if seen.contains(&at) {
            return Ok(text);
        }
        seen.push(at)?;
        let row = links.rows.get(at).map_or(NONE, |row| row.as_slice());
        let Some(next) = first_set(flags, row) else {
            return Ok(text);
        };
        at = next;
        put_name(alloc, &mut text, all, at)?;
    }
    text.push_str(", ..")?;
    Ok(text)
}

/// Puts the name of the document of that number behind others.
fn put_name(
    alloc: Global,
    text: &mut String,
    all: &[Held<'_>],
    number: usize,
) -> Result<(), AllocError> {
    if let Some(held) = all.get(number) {
        let name = named(alloc, held.key)?;
        if !text.is_empty() {
            text.push_str(", ")?;
        }
        text.push_str(name.as_str())?;
    }
    Ok(())
}

/// What is said of the document of that number, whose references lead on without end.
///
/// # Errors
///
/// `AllocError` if memory runs out.
///
/// Its contract leaves open: all of it: the sentence is shown by the stored run `lint_told`.
pub fn endless_sentence(
    alloc: Global,
    all: &[Held<'_>],
    links: &Links,
    from: usize,
) -> Result<String, AllocError> {
    let way = way(alloc, all, links, links.endless.as_slice(), from)?;
    let way = way.as_str();
    format!(in alloc; "its references lead into a circle: {way}")
}

/// That the root doesn't lead to some of the documents that are stored, at most eight by their names.
///
/// # Errors
///
/// `AllocError` if memory runs out.
///
/// Its contract leaves open: all of it: the sentence is shown by the stored run `lint_told`.
pub fn unreached_sentence(alloc: Global, keys: &[&DocKey]) -> Result<String, AllocError> {
    let mut text = String::new(alloc);
    for key in keys.iter().take(MOST_VERSIONS) {
        let name = named(alloc, key)?;
        if !text.is_empty() {
            text.push_str(", ")?;
        }
        text.push_str(name.as_str())?;
    }
    if keys.len() > MOST_VERSIONS {
        text.push_str(", ..")?;
    }
    let (count, text) = (keys.len(), text.as_str());
    format!(in alloc; "the root doesn't lead to {count} of the stored documents: {text}")
}
