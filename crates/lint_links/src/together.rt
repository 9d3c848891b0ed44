//! What is told of documents that are stored together.

ghost use Rattle.std.specs.Prelude.{◌≡◌, ◌+◌, ◌<◌, [], IfOk, OnOk, Some, false, get_or, is_some, length, map, vec_len};
ghost use Rattle.std.specs.FinMap.{entries};
ghost use Rattle.std.specs.List.{list_any};
ghost use Rattle.ent_finder.specs.Slots.{held};
ghost use Rattle.ent_policy.specs.Same.{same_key};
ghost use Rattle.lint_links.specs.Filed.{Adds, file_keys};
ghost use Rattle.lint_links.specs.Root.{root_faults};
ghost use Rattle.lint_links.specs.Stored.{document_in};
ghost use Rattle.lint_links.specs.proofs_only.Found.{AreFound};
ghost use Rattle.lint_links.specs.Together.{far, faults_together, is_endless, is_long, unfound};

use crate::counts::count_at;
use crate::held::{Held, held_in};
use crate::links::{Links, MOST_HOPS, is_set};
use crate::missing::unfound_among;
use crate::root::unreached;
use crate::sentences::{endless_sentence, named, unfound_sentence, unreached_sentence};
use crate::state::{StoredState, put};
use ent_finder::PolicyFinderModule;
use ent_json::read_json;
use ent_polform::read_document;
use ent_policy::{CheckFault, DocKey, Document};
use ent_values::Items;
use json::Scratch;
use lint_messages::{line_and_column, one_line, placed};
use std::alloc::{AllocError, Global};

/// More documents than these to follow for one request are told.
const MANY_DOCUMENTS: u64 = 1_000;

/// What is said of a document to which the root doesn't lead.
const UNREACHED: &str = "the root doesn't lead here";

/// What is said of a document in which a longer chain begins.
const TOO_LONG: &str =
    "a chain of more than six references begins here; from a root, six are followed";

/// Where a document comes from.
#[derive(Drop)]
struct Origin<'a> {
    key: DocKey,
    /// What its file is called.
    name: &'a str,
    /// What its file has.
    text: &'a [u8],
}

/// Documents that are stored together: those of a state, and those of files, which take the place of stored ones with
/// the same kind, id and version.
#[derive(Drop)]
pub struct Together<'a> {
    alloc: Global,
    state: StoredState,
    /// What the state is called.
    name: &'a str,
    files: Vec<Origin<'a>>,
}

/// What is told of documents together.
#[derive(Drop)]
pub struct ToldLinks {
    /// What is wrong, a line each.
    pub faults: Vec<String>,
    /// What isn't wrong, but may not be meant.
    pub warnings: Vec<String>,
}

/// The file of a document, if it comes from one of these.
fn origin_of<'f, 'a>(files: &'f [Origin<'a>], key: &DocKey) -> Option<&'f Origin<'a>>
    ensures { is_some result ≡ list_any (λ file. same_key file.key key.now) files.now }
{
    files.iter().find(|file| file.key == *key)
}

/// A line on a place of a document, behind the name of what it comes from.
fn line_on(alloc: Global, name: &str, pointer: &str, sentence: &str) -> Result<String, AllocError> {
    let (name, rest) = (one_line(alloc, name)?, placed(alloc, pointer, sentence)?);
    let (name, rest) = (name.as_str(), rest.as_str());
    format!(in alloc; "{name}: {rest}")
}

/// The place of a reference in its document, as a JSON pointer (RFC 6901).
fn pointer(alloc: Global, path: &Items<usize>) -> Result<String, AllocError> {
    let mut text = String::new(alloc);
    for number in path.as_slice() {
        let step = format!(in alloc; "/PolicySet/Children/{number}")?;
        text.push_str(step.as_str())?;
    }
    Ok(text)
}

impl<'a> Together<'a> {
    /// The documents of a state, which is called so.
    ///
    /// Its contract is an equation.
    pub fn new(alloc: Global, name: &'a str, state: StoredState) -> Together<'a>
        ensures state { result.state ≡ state }
        ensures files { file_keys result ≡ [] }
    {
        Together {
            alloc,
            state,
            name,
            files: Vec::new(alloc),
        }
    }

    /// The file of a document, if it comes from one.
    fn origin(&self, key: &DocKey) -> Option<&Origin<'a>>
        ensures { is_some result ≡ list_any (λ file. same_key file.key key.now) self.now.files.items }
    {
        origin_of(self.files.as_slice(), key)
    }

    /// Adds the document of a file, if its text is one. What is told of it where another file has it already.
    ///
    /// # Errors
    ///
    /// `AllocError` if memory runs out.
    ///
    /// Its contract leaves open: the words that are told of a document that is there already; by which file it is named
    /// later.
    pub fn add(&mut self, name: &'a str, text: &'a [u8]) -> Result<Option<String>, AllocError>
        ensures { IfOk result (λ told. Adds (document_in text.now) (is_some told) self.old self.new) }
    {
        let alloc = self.alloc;
        let mut scratch = Scratch::new(alloc);
        let Some(json) = read_json(alloc, text, &mut scratch)? else {
            return Ok(None);
        };
        let document = match read_document(alloc, &json) {
            Ok(document) => document,
            Err(CheckFault::Doc(_)) => return Ok(None),
            Err(CheckFault::Memory) => return Err(AllocError),
        };
        self.add_document(name, text, document)
    }

    /// Adds a document of a file.
    fn add_document(
        &mut self,
        name: &'a str,
        text: &'a [u8],
        document: Document,
    ) -> Result<Option<String>, AllocError>
        ensures { IfOk result (λ told. Adds (Some document) (is_some told) self.old self.new) }
    {
        let alloc = self.alloc;
        let key = document.key(alloc)?;
        if let Some(first) = self.origin(&key) {
            let (named, other) = (named(alloc, &key)?, first.name);
            let named = named.as_str();
            let sentence = format!(in alloc; "{named} stands in {other} too")?;
            return Ok(Some(line_on(alloc, name, "", sentence.as_str())?));
        }
        put(alloc, &mut self.state.docs, document)?;
        self.files.push(Origin { key, name, text })?;
        Ok(None)
    }

    /// A line on a place of a held document: of a file with line and column, of the state with the document's name.
    fn told_at(&self, key: &DocKey, pointer: &str, sentence: &str) -> Result<String, AllocError> {
        let alloc = self.alloc;
        match self.origin(key) {
            Some(file) => {
                let position = line_and_column(alloc, file.text, pointer)?;
                let (line, column) = (position.line, position.column);
                let sentence = format!(in alloc; "line {line}, column {column}: {sentence}")?;
                line_on(alloc, file.name, pointer, sentence.as_str())
            }
            None => {
                let named = named(alloc, key)?;
                let named = named.as_str();
                let sentence = format!(in alloc; "{named}: {sentence}")?;
                line_on(alloc, self.name, pointer, sentence.as_str())
            }
        }
    }

    /// Puts a line for each reference of a document that finds none.
    fn tell_unfound(
        &self,
        all: &[Held<'_>],
        links: &Links,
        one: &Held<'_>,
        lines: &mut Vec<String>,
    ) -> Result<(), AllocError>
        requires { AreFound (held self.now.state.docs) links.now.found }
        ensures { OnOk result (vec_len lines.new
            ≡ vec_len lines.old + length (unfound (held self.now.state.docs) one.now.document.now)) }
    {
        let alloc = self.alloc;
        let unfound = unfound_among(alloc, &self.state.docs, &links.found, one.document)?;
        for placed in unfound.as_slice() {
            let pointer = pointer(alloc, &placed.path)?;
            let sentence = unfound_sentence(alloc, all, &placed.reference)?;
            lines.push(self.told_at(one.key, pointer.as_str(), sentence.as_str())?)?;
        }
        Ok(())
    }

    /// Puts a line for a document whose references lead into a circle, or over more references than are followed.
    fn tell_far(
        &self,
        all: &[Held<'_>],
        links: &Links,
        number: usize,
        lines: &mut Vec<String>,
    ) -> Result<(), AllocError>
        requires { number < length all.now }
        ensures { OnOk result (vec_len lines.new
            ≡ vec_len lines.old
            + far (get_or links.now.endless.items number false) (get_or links.now.long.items number false)) }
    {
        let alloc = self.alloc;
        let key = all[number].key;
        if is_set(links.endless.as_slice(), number) {
            let sentence = endless_sentence(alloc, all, links, number)?;
            lines.push(self.told_at(key, "", sentence.as_str())?)?;
        } else if is_set(links.long.as_slice(), number) {
            lines.push(self.told_at(key, "", TOO_LONG)?)?;
        }
        Ok(())
    }

    /// Puts a line for the root, if it finds no document.
    fn tell_root(&self, all: &[Held<'_>], lines: &mut Vec<String>) -> Result<(), AllocError>
        ensures { OnOk result (vec_len lines.new
            ≡ vec_len lines.old + root_faults (held self.now.state.docs) self.now.state.root) }
    {
        let alloc = self.alloc;
        if let Some(root) = &self.state.root {
            if self.state.docs.find_reference(root).is_none() {
                let sentence = unfound_sentence(alloc, all, root)?;
                let (name, sentence) = (self.name, sentence.as_str());
                let sentence = format!(in alloc; "the root: {sentence}")?;
                let line = one_line(alloc, sentence.as_str())?;
                let line = line.as_str();
                lines.push(format!(in alloc; "{name}: {line}")?)?;
            }
        }
        Ok(())
    }

    /// What is wrong with the documents together, one line each: each reference that finds none of them, each document
    /// whose references lead into a circle, or over more than six references, and that the root finds none.
    fn faults(&self, links: &Links) -> Result<Vec<String>, AllocError>
        requires long { links.now.long.items
            ≡ map (λ e. is_long (held self.now.state.docs) e.1) (entries (held self.now.state.docs)) }
        requires endless { links.now.endless.items
            ≡ map (λ e. is_endless (held self.now.state.docs) e.1) (entries (held self.now.state.docs)) }
        requires found { AreFound (held self.now.state.docs) links.now.found }
        ensures { IfOk result (λ lines. vec_len lines
            ≡ faults_together (held self.now.state.docs) + root_faults (held self.now.state.docs) self.now.state.root) }
    {
        let alloc = self.alloc;
        let held = held_in(alloc, &self.state.docs)?;
        let all = held.as_slice();
        let mut lines = Vec::new(alloc);
        for (number, one) in all.iter().enumerate() {
            self.tell_unfound(all, links, one, &mut lines)?;
            self.tell_far(all, links, number, &mut lines)?;
        }
        self.tell_root(all, &mut lines)?;
        Ok(lines)
    }

    /// A line for each document from which one request may have many followed.
    fn many(&self, links: &Links) -> Result<Vec<String>, AllocError> {
        let alloc = self.alloc;
        let held = held_in(alloc, &self.state.docs)?;
        let mut lines = Vec::new(alloc);
        for (number, one) in held.as_slice().iter().enumerate() {
            let count = count_at(links.followed.as_slice(), number);
            if count > MANY_DOCUMENTS {
                let sentence = format!(in alloc;
                    "its references multiply: one request may have {count} documents followed"
                )?;
                lines.push(self.told_at(one.key, "", sentence.as_str())?)?;
            }
        }
        Ok(lines)
    }

    /// What is told of the documents together. The warnings tell, where there is a root, to which of them it doesn't
    /// lead, and from which of them one request may have more than a thousand documents followed.
    ///
    /// # Errors
    ///
    /// `AllocError` if memory runs out.
    ///
    /// Its contract leaves open: the texts of faults and warnings, and in which order they stand; how many faults there
    /// are is said.
    pub fn told(self) -> Result<ToldLinks, AllocError>
        ensures { IfOk result (λ told. vec_len told.faults
            ≡ faults_together (held self.entry.state.docs)
            + root_faults (held self.entry.state.docs) self.entry.state.root) }
    {
        let alloc = self.alloc;
        let links = Links::of(alloc, &self.state.docs, MOST_HOPS + 1, MOST_HOPS)?;
        let faults = self.faults(&links)?;
        let mut warnings = self.many(&links)?;
        tell_unreached(self, &mut warnings)?;
        Ok(ToldLinks { faults, warnings })
    }
}

/// Puts a line for each document of a file to which the root doesn't lead, and one for those of the state.
fn tell_unreached(together: Together<'_>, lines: &mut Vec<String>) -> Result<(), AllocError> {
    let Together {
        alloc,
        state,
        name,
        files,
    } = together;
    let StoredState { docs, root } = state;
    if root.is_none() {
        return Ok(());
    }
    let keys = unreached(alloc, docs, &root)?;
    let mut others = Vec::new(alloc);
    for key in keys.as_slice() {
        match origin_of(files.as_slice(), key) {
            Some(file) => lines.push(line_on(alloc, file.name, "", UNREACHED)?)?,
            None => others.push(key)?,
        }
    }
    if !others.is_empty() {
        let sentence = unreached_sentence(alloc, others.as_slice())?;
        let sentence = one_line(alloc, sentence.as_str())?;
        let sentence = sentence.as_str();
        lines.push(format!(in alloc; "{name}: {sentence}")?)?;
    }
    Ok(())
}
