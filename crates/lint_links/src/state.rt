//! The documents and the root of a state, by the lines of its dump.

ghost use Rattle.std.specs.Prelude.{◌≡◌, IfErr, IfOk, None, OnOk, Some};
ghost use Rattle.serde_json.specs.Find.{get};
ghost use Rattle.std.specs.Prelude.{codes};
ghost use Rattle.std.specs.FinMap.{insert};
ghost use Rattle.ent_policy.specs.Key.{key_of};
ghost use Rattle.lint_links.specs.Stored.{added, after_data, after_line, nothing, rooted, stored_in, stored_of};
ghost use Rattle.lint_links.specs.proofs_only.Refused.{IsNotDump, IsNotOfDump};

use ent_finder::{MapDocs, PolicyFinderModule};
use ent_json::{JsonTree, read_json, text_at};
use ent_polform::{read_document, read_reference};
use ent_policy::{CheckFault, Document, Reference};
use json::Scratch;
use std::alloc::{AllocError, Global};

/// What the lines of a state hold of documents.
#[derive(Drop)]
pub struct StoredState {
    /// The documents, as if one module held them.
    pub docs: MapDocs,
    /// What the root refers to, if there is one.
    pub root: Option<Reference>,
}

/// Why the lines of a state can't be read.
#[derive(Clone, Copy, Debug, PartialEq, Eq)]
pub enum StateFault {
    /// The line of this number, from 1, isn't one of a dump.
    NotDump(usize),
    /// Memory was wanting.
    Memory,
}

/// Why a line can't be read.
#[derive(Clone, Copy)]
enum StateLineFault {
    /// It isn't one of a dump.
    NotDump,
    /// Memory was wanting.
    Memory,
}

impl StateLineFault {
    /// The same of the line of this number.
    fn at(self, number: usize) -> StateFault
        ensures { IsNotDump result → IsNotOfDump self }
    {
        match self {
            StateLineFault::NotDump => StateFault::NotDump(number),
            StateLineFault::Memory => StateFault::Memory,
        }
    }
}

/// Puts a document under its key, in the place of the one that stands there, if one does. Gives whether one did.
pub(crate) fn put(alloc: Global, docs: &mut MapDocs, document: Document) -> Result<bool, AllocError>
    ensures { OnOk result (docs.new ≡ insert docs.old (key_of document) (Some document)) }
{
    let key = document.key(alloc)?;
    let mut document = Some(document);
    docs.swap_document(&key, &mut document)?;
    Ok(document.is_some())
}

impl StoredState {
    /// No documents and no root.
    ///
    /// Its contract is an equation.
    pub fn new(alloc: Global) -> StoredState
        ensures { stored_in result ≡ nothing }
    {
        StoredState {
            docs: MapDocs::new(alloc),
            root: None,
        }
    }

    /// Reads a line that adds a document.
    fn add<J: JsonTree>(&mut self, alloc: Global, line: &J) -> Result<(), StateLineFault>
        ensures ok { OnOk result (added (stored_in self.old) (get (codes "document") (J.content line.now))
            ≡ Some (stored_in self.new)) }
        ensures err { IfErr result (λ e. IsNotOfDump e
            → added (stored_in self.old) (get (codes "document") (J.content line.now)) ≡ None) }
    {
        let Some(json) = line.get("document") else {
            return Err(StateLineFault::NotDump);
        };
        let document = match read_document(alloc, json) {
            Ok(document) => document,
            Err(CheckFault::Doc(_)) => return Err(StateLineFault::NotDump),
            Err(CheckFault::Memory) => return Err(StateLineFault::Memory),
        };
        match put(alloc, &mut self.docs, document) {
            Ok(_) => Ok(()),
            Err(_) => Err(StateLineFault::Memory),
        }
    }

    /// Reads a line that sets the root.
    fn set_root<J: JsonTree>(&mut self, alloc: Global, line: &J) -> Result<(), StateLineFault>
        ensures ok { OnOk result (rooted (stored_in self.old) (get (codes "reference") (J.content line.now))
            ≡ Some (stored_in self.new)) }
        ensures err { IfErr result (λ e. IsNotOfDump e
            → rooted (stored_in self.old) (get (codes "reference") (J.content line.now)) ≡ None) }
    {
        let Some(json) = line.get("reference") else {
            return Err(StateLineFault::NotDump);
        };
        if json.is_null() {
            self.root = None;
            return Ok(());
        }
        match read_reference(alloc, json) {
            Ok(reference) => {
                self.root = Some(reference);
                Ok(())
            }
            Err(CheckFault::Doc(_)) => Err(StateLineFault::NotDump),
            Err(CheckFault::Memory) => Err(StateLineFault::Memory),
        }
    }

    /// Reads the JSON of a line of a dump, of which those on documents and the root count here.
    fn read<J: JsonTree>(&mut self, alloc: Global, line: &J) -> Result<(), StateLineFault>
        ensures ok { OnOk result (after_data (stored_in self.old) (J.content line.now)
            ≡ Some (stored_in self.new)) }
        ensures err { IfErr result (λ e. IsNotOfDump e
            → after_data (stored_in self.old) (J.content line.now) ≡ None) }
    {
        let Some(word) = text_at(line, "do") else {
            return Err(StateLineFault::NotDump);
        };
        match word {
            "policy.add" => self.add(alloc, line),
            "root.set" => self.set_root(alloc, line),
            "format"
            | "person.add"
            | "action.add"
            | "resource.add"
            | "attr.set"
            | "day.set"
            | "moment.set" => Ok(()),
            _ => Err(StateLineFault::NotDump),
        }
    }

    /// Reads a line of a dump. An empty one counts for nothing.
    fn read_line(&mut self, alloc: Global, line: &[u8]) -> Result<(), StateLineFault>
        ensures ok { OnOk result (after_line (stored_in self.old) line.now ≡ Some (stored_in self.new)) }
        ensures err { IfErr result (λ e. IsNotOfDump e → after_line (stored_in self.old) line.now ≡ None) }
    {
        if line.is_empty() {
            return Ok(());
        }
        let mut scratch = Scratch::new(alloc);
        match read_json(alloc, line, &mut scratch) {
            Ok(Some(json)) => self.read(alloc, &json),
            Ok(None) => Err(StateLineFault::NotDump),
            Err(_) => Err(StateLineFault::Memory),
        }
    }

    /// Reads the line of this number.
    fn read_numbered(&mut self, alloc: Global, number: usize, line: &[u8]) -> Result<(), StateFault>
        ensures ok { OnOk result (after_line (stored_in self.old) line.now ≡ Some (stored_in self.new)) }
        ensures err { IfErr result (λ e. IsNotDump e → after_line (stored_in self.old) line.now ≡ None) }
    {
        match self.read_line(alloc, line) {
            Ok(()) => Ok(()),
            Err(fault) => Err(fault.at(number)),
        }
    }

    /// The documents and the root of the state whose dump has these lines. Empty lines count for nothing.
    ///
    /// # Errors
    ///
    /// The number of the first line that isn't one of a dump; or memory runs out.
    ///
    /// Its contract is an equation but for memory.
    pub fn of(alloc: Global, text: &[u8]) -> Result<StoredState, StateFault>
        ensures ok { IfOk result (λ state. stored_of text.now ≡ Some (stored_in state)) }
        ensures err { IfErr result (λ e. IsNotDump e → stored_of text.now ≡ None) }
    {
        let mut state = StoredState::new(alloc);
        let mut number = 0usize;
        for line in text.split(|byte| *byte == b'\n') {
            number = number.saturating_add(1);
            state.read_numbered(alloc, number, line)?;
        }
        Ok(state)
    }
}
