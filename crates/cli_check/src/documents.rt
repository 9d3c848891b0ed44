//! `review check`: what is said of policies in files, each by itself and together, and of lines that set values.

ghost use Rattle.std.specs.Prelude.{◌≡◌, Result};
ghost use Rattle.ent_wire.specs.declared.fault.ServeFault.TheVariants.{Memory};
ghost use Rattle.cli_check.specs.Statuses.{checked_status};
ghost use Rattle.cli_check.specs.declared.found.FaultCount.{FaultCount};
ghost use Rattle.cli_words.specs.declared.status.Unmet.{Unmet};

use crate::checking::{CheckResult, FILE_LIMIT, Verdict, check, is_fine, is_passed};
use crate::declaring::{check_declared, told_undeclared};
use crate::folders::paths_of;
use crate::found::FaultCount;
use crate::known::Vocabulary;
use crate::meant::meant;
use crate::reading::{read_declared, tell_place};
use crate::sentences::{
    file_sentence, lines_alone_sentence, no_files_sentence, undeclared_sentence,
};
use crate::set_lines::check_lines;
use crate::sizes::line_excess;
use crate::state_file::read_state;
use crate::status::check_status;
use cli_words::{AskedCheck, Shown, Source, Unmet, pass_check, read_source, tell};
use ent_policy::Document;
use ent_values::Items;
use ent_wire::ServeFault;
use lint_declared::DeclaredAttribute;
use lint_links::{StoredState, Together};
use lint_messages::{explain_all, warnings};
use std::alloc::{AllocError, Global};
use std::io;
use std::rt::Files;

/// What the state is called where none is named.
const NO_STATE: &str = "the state";

/// A file that was judged by itself.
#[derive(Drop)]
struct JudgedText {
    /// What it has.
    bytes: Vec<u8>,
    /// Whether it is a document that may be stored.
    is_document: bool,
}

/// Says on standard error that memory is wanting.
pub(crate) fn wanting(rt: &impl Eprint) -> ServeFault
    ensures { result ≡ Memory }
{
    tell(rt, ServeFault::Memory)
}

/// Says each fault of a document on standard error, and gives how many were told.
fn tell_each<R: Eprint + AllocGlobal>(
    rt: &R,
    source: Source<'_>,
    bytes: &[u8],
) -> Result<usize, AllocError> {
    let name = Shown(source.name());
    let explained = explain_all(rt.alloc(), bytes)?;
    for line in &explained.lines {
        let _ = eprintln!(rt; "{name}: {line}");
    }
    if explained.is_cut {
        let _ = eprintln!(rt; "{name}: there may be more faults");
    }
    Ok(explained.lines.len())
}

/// Says on standard error what is wrong with a file, if anything is, and where in it: all of it, or what is first.
/// Gives how much was told.
fn tell_refused<R: Eprint + AllocGlobal>(
    rt: &R,
    source: Source<'_>,
    bytes: &[u8],
    judged: &CheckResult,
    is_all: bool,
) -> Result<usize, AllocError> {
    if is_fine(judged) {
        return Ok(0);
    }
    let sentence = match judged.verdict {
        Verdict::Passed(_, _, _) => undeclared_sentence(),
        Verdict::Refused(fault) => file_sentence(fault),
    };
    let _ = rt.eprintln(sentence);
    if is_all && !is_passed(&judged.verdict) && bytes.len() <= FILE_LIMIT {
        return tell_each(rt, source, bytes);
    }
    tell_place(rt, source, &judged.told);
    Ok(1)
}

/// Says on standard error with which name a document compares that isn't listed, if it does, and gives how much was
/// told.
fn tell_unlisted<R: Eprint + AllocGlobal>(
    rt: &R,
    source: Source<'_>,
    bytes: &[u8],
    known: &Vocabulary,
) -> Result<usize, AllocError> {
    match told_undeclared(rt.alloc(), bytes, known.with_names())? {
        None => Ok(0),
        Some(told) => {
            let _ = eprintln!(rt; "warning: {}: {told}", Shown(source.name()));
            Ok(1)
        }
    }
}

/// Says on standard error what of a document may not be meant, and gives how much was told.
fn tell_warnings<R: Eprint + AllocGlobal>(
    rt: &R,
    source: Source<'_>,
    bytes: &[u8],
    document: &Document,
) -> Result<usize, AllocError> {
    let name = Shown(source.name());
    let mut warnings = warnings(rt.alloc(), bytes)?;
    warnings.append(&mut meant(rt.alloc(), bytes, document)?)?;
    for warning in &warnings {
        let _ = eprintln!(rt; "warning: {name}: {warning}");
    }
    let excess = line_excess(bytes);
    if excess == 0 {
        return Ok(warnings.len());
    }
    let _ = eprintln!(rt;
        "warning: {name}: no line can carry it: `policy.add` with it has {excess} bytes too many"
    );
    Ok(warnings.len().saturating_add(1))
}

/// Writes the line of the document that these bytes are, and gives the verdict on it and what is told of it; a fault is
/// told on standard error. Where all that is wrong is to be told, the place of the first fault isn't looked for here.
fn judge_bytes<R: Print + Eprint + AllocGlobal>(
    rt: &R,
    bytes: &[u8],
    known: &Option<Vocabulary>,
    is_all: bool,
) -> Result<CheckResult, ServeFault> {
    let alloc = rt.alloc();
    let writer = &mut io::writer(rt);
    let judged = match known {
        None => check(alloc, bytes, !is_all, writer),
        Some(known) => check_declared(alloc, bytes, known.declared(), !is_all, writer),
    };
    match judged {
        Ok(judged) => Ok(judged),
        Err(fault) => Err(tell(rt, fault)),
    }
}

/// Says on standard error what of a document that was judged is wrong or may not be meant, and counts it.
fn tell_judged<R: Eprint + AllocGlobal>(
    rt: &R,
    source: Source<'_>,
    bytes: &[u8],
    judged: &CheckResult,
    known: &Option<Vocabulary>,
    is_all: bool,
) -> Result<FaultCount, AllocError> {
    let mut found = FaultCount::nothing();
    found.add(tell_refused(rt, source, bytes, judged, is_all)?, 0);
    if let Some(document) = &judged.document {
        found.add(0, tell_warnings(rt, source, bytes, document)?);
    }
    if let (Some(known), true) = (known, is_fine(judged)) {
        found.add(0, tell_unlisted(rt, source, bytes, known)?);
    }
    Ok(found)
}

/// Judges the document of a source by itself, writes its line, and says what is wrong with it.
fn judge_source<R: Files + Input + Print + Eprint + AllocGlobal>(
    rt: &R,
    source: Source<'_>,
    known: &Option<Vocabulary>,
    is_all: bool,
    found: &mut FaultCount,
) -> Result<JudgedText, ServeFault> {
    let bytes = read_source(rt, source, FILE_LIMIT as u64 + 1)?;
    let judged = judge_bytes(rt, bytes.as_slice(), known, is_all)?;
    let is_document = is_passed(&judged.verdict);
    match tell_judged(rt, source, bytes.as_slice(), &judged, known, is_all) {
        Ok(more) => found.add(more.faults, more.warnings),
        Err(_) => return Err(wanting(rt)),
    }
    Ok(JudgedText { bytes, is_document })
}

/// Judges the documents of the sources that the words name, each by itself.
fn judge_each<R: Files + Input + Print + Eprint + AllocGlobal>(
    rt: &R,
    words: &[&str],
    known: &Option<Vocabulary>,
    is_all: bool,
    found: &mut FaultCount,
) -> Result<Vec<JudgedText>, ServeFault> {
    let mut texts = Vec::new(rt.alloc());
    for &word in words {
        let text = judge_source(rt, Source::named(word), known, is_all, found)?;
        if texts.push(text).is_err() {
            return Err(wanting(rt));
        }
    }
    Ok(texts)
}

/// Says what is wrong with the documents of a state and of files together, and what may not be meant.
fn tell_together<R: Eprint + AllocGlobal>(
    rt: &R,
    state: StoredState,
    name: &str,
    words: &[&str],
    texts: &[JudgedText],
    found: &mut FaultCount,
) -> Result<(), AllocError> {
    let mut together = Together::new(rt.alloc(), name, state);
    for (word, text) in words.iter().zip(texts) {
        if text.is_document {
            if let Some(told) = together.add(Source::named(word).name(), text.bytes.as_slice())? {
                let _ = rt.eprintln(told);
                found.add(1, 0);
            }
        }
    }
    let told = together.told()?;
    for line in &told.faults {
        let _ = rt.eprintln(line.as_str());
    }
    for warning in &told.warnings {
        let _ = eprintln!(rt; "warning: {warning}");
    }
    found.add(told.faults.len(), told.warnings.len());
    Ok(())
}

/// Says how much of something was found, if any was.
fn tell_count(rt: &impl Eprint, count: usize, what: &str) {
    match count {
        0 => {}
        1 => {
            let _ = eprintln!(rt; "review: 1 {what}");
        }
        _ => {
            let _ = eprintln!(rt; "review: {count} {what}s");
        }
    }
}

/// The bytes of the state or of lines, if a source of them is named.
fn bytes_of<R: Files + Input + Eprint + AllocGlobal>(
    rt: &R,
    source: Option<Source<'_>>,
) -> Result<Vec<u8>, ServeFault> {
    match source {
        None => Ok(Vec::new(rt.alloc())),
        Some(source) => read_source(rt, source, u64::MAX),
    }
}

/// The attributes that are declared, if a source of them is named.
fn attributes_of<R: Files + Input + Eprint + AllocGlobal>(
    rt: &R,
    asked: &AskedCheck<'_, '_>,
) -> Result<Option<Items<DeclaredAttribute>>, Unmet> {
    match asked.attributes {
        Some(source) => Ok(Some(read_declared(rt, source)?)),
        None if asked.lines.is_some() => {
            let _ = rt.eprintln(lines_alone_sentence());
            Err(Unmet::Refused)
        }
        None => Ok(None),
    }
}

/// What documents and lines are compared with, if attributes are declared: names are listed by the lines of the state
/// and by those beside it.
fn known_by<R: Eprint + AllocGlobal>(
    rt: &R,
    attributes: Option<Items<DeclaredAttribute>>,
    state: &[u8],
    lines: &[u8],
) -> Result<Option<Vocabulary>, ServeFault> {
    let Some(attributes) = attributes else {
        return Ok(None);
    };
    match Vocabulary::new(rt.alloc(), attributes, state, lines) {
        Ok(known) => Ok(Some(known)),
        Err(_) => Err(wanting(rt)),
    }
}

/// These texts, borrowed.
fn borrowed(alloc: Global, paths: &[String]) -> Result<Vec<&str>, AllocError> {
    let mut words = Vec::with_capacity(alloc, paths.len())?;
    for path in paths {
        words.push(path.as_str())?;
    }
    Ok(words)
}

/// Does what is asked for, and gives what was found.
fn check_all<R: Files + Input + Print + Eprint + AllocGlobal>(
    rt: &R,
    asked: &AskedCheck<'_, '_>,
    commands: &[&str],
) -> Result<FaultCount, Unmet> {
    pass_check(rt, asked)?;
    let paths = paths_of(rt, asked.files)?;
    let Ok(words) = borrowed(rt.alloc(), paths.files.as_slice()) else {
        return Err(Unmet::Failed(wanting(rt)));
    };
    if words.is_empty() {
        let _ = rt.eprintln(no_files_sentence());
        return Err(Unmet::Refused);
    }
    let empty = tell_empty(rt, paths.empty.as_slice());
    check_words(rt, asked, commands, words.as_slice(), empty)
}

/// Says which folders have no document, and gives how many.
fn tell_empty(rt: &impl Eprint, folders: &[String]) -> usize {
    for folder in folders {
        let name = Shown(folder.as_str());
        let _ = eprintln!(rt; "{name}: no file there ends in .json");
    }
    folders.len()
}

/// Checks the documents that these words name, beside so many folders without one, and gives what was found.
fn check_words<R: Files + Input + Print + Eprint + AllocGlobal>(
    rt: &R,
    asked: &AskedCheck<'_, '_>,
    commands: &[&str],
    words: &[&str],
    empty: usize,
) -> Result<FaultCount, Unmet> {
    let attributes = attributes_of(rt, asked)?;
    let state_lines = bytes_of(rt, asked.stored)?;
    let lines = bytes_of(rt, asked.lines)?;
    let known = known_by(rt, attributes, state_lines.as_slice(), lines.as_slice())?;
    let (state, name) = match asked.stored {
        None => (StoredState::new(rt.alloc()), NO_STATE),
        Some(source) => (
            read_state(rt, source, state_lines.as_slice())?,
            source.name(),
        ),
    };
    let is_alone = words.len() == 1 && asked.stored.is_none() && empty == 0;
    let mut found = FaultCount::nothing();
    found.add(empty, 0);
    let texts = judge_each(rt, words, &known, asked.is_all, &mut found)?;
    if !is_alone {
        let texts = texts.as_slice();
        if tell_together(rt, state, name, words, texts, &mut found).is_err() {
            return Err(Unmet::Failed(wanting(rt)));
        }
    }
    if let (Some(source), Some(known)) = (asked.lines, &known) {
        let (faults, warnings) = check_lines(rt, source, lines.as_slice(), known, commands)?;
        found.add(faults, warnings);
    }
    if !is_alone || asked.lines.is_some() {
        tell_count(rt, found.faults, "fault");
    }
    tell_count(rt, found.warnings, "warning");
    Ok(found)
}

/// Checks documents, each by itself and together, and lines that set values, as is asked for; these are the words of
/// the commands that a line may have. Gives the exit status.
///
/// Its contract leaves open: what was found: any status of a check would do, whatever the files have.
pub fn check_documents<R: Files + Input + Print + Eprint + AllocGlobal>(
    rt: &R,
    asked: AskedCheck<'_, '_>,
    commands: &[&str],
) -> u8
    ensures { (checked : Result FaultCount Unmet) × (result ≡ checked_status asked.entry.is_strict checked) }
{
    let checked = check_all(rt, &asked, commands);
    check_status(asked.is_strict, checked)
}
