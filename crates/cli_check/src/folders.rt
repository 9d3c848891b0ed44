//! Folders of documents.

use cli_words::{Source, tell_unread};
use ent_wire::ServeFault;
use std::alloc::Global;
use std::io::{ErrorKind, Read};
use std::rt::Files;
use std::{io, str};

/// What the names of documents in a folder end in.
const ENDING: &str = ".json";

/// How much room each read of a listing gets: a system refuses to read where the next name doesn't fit.
const ROOM: usize = 65_536;

/// Whether a path names a folder.
fn is_folder(rt: &impl Files, path: &str) -> bool {
    match rt.metadata(path) {
        Ok(metadata) => metadata.is_dir(),
        Err(_) => false,
    }
}

/// The names of a listing, each ended by a zero byte.
fn listed<D: Read>(alloc: Global, listing: &mut D) -> io::Result<Vec<u8>> {
    let mut room = vec![in alloc; 0; ROOM]?;
    let mut names = Vec::new(alloc);
    for _ in 0..u64::MAX {
        match listing.read(room.as_mut_slice()) {
            Ok(0) => return Ok(names),
            Ok(n) => names.extend_from_slice(&room[..n])?,
            Err(e) if e.kind() == ErrorKind::Interrupted => {}
            Err(e) => return Err(e),
        }
    }
    Ok(names)
}

/// The names in a listing that end as those of documents do, in the order of their bytes. One of them that isn't UTF-8
/// is a fault, since it can't be told.
fn names_in<D: Read>(alloc: Global, listing: &mut D) -> io::Result<Vec<String>> {
    let mut names = Vec::new(alloc);
    let listed = listed(alloc, listing)?;
    for name in listed.as_slice().split(|byte| *byte == 0) {
        if name.ends_with(ENDING.as_bytes()) {
            let Ok(name) = str::from_utf8(name) else {
                return Err(io::Error::from(ErrorKind::InvalidFilename));
            };
            names.push(String::from_str(alloc, name)?)?;
        }
    }
    names.sort()?;
    Ok(names)
}

/// Puts the paths of the documents in a listing last, of the folder whose path with a slash behind it stands around
/// them.
fn put_folder<R: Files + AllocGlobal>(
    rt: &R,
    around: &str,
    listing: &mut R::Dir,
    paths: &mut Vec<String>,
) -> io::Result<()> {
    let alloc = rt.alloc();
    for name in &names_in(alloc, listing)? {
        let path = format!(in alloc; "{around}{name}")?;
        if !is_folder(rt, path.as_str()) {
            paths.push(path)?;
        }
    }
    Ok(())
}

/// A path with a slash behind it, by which a link to a folder is followed too.
fn with_slash(alloc: Global, path: &str) -> io::Result<String> {
    let mut around = String::from_str(alloc, path)?;
    if !path.ends_with('/') {
        around.push('/')?;
    }
    Ok(around)
}

/// Puts what a word names last: the documents of a folder that can be opened, or the word itself.
fn put_word<R: Files + AllocGlobal>(rt: &R, word: &str, paths: &mut Vec<String>) -> io::Result<()> {
    let alloc = rt.alloc();
    if let Source::File(path) = Source::named(word) {
        let around = with_slash(alloc, path)?;
        if !path.is_empty() {
            if let Ok(mut listing) = rt.open_dir(around.as_str()) {
                return put_folder(rt, around.as_str(), &mut listing, paths);
            }
        }
    }
    paths.push(String::from_str(alloc, word)?)?;
    Ok(())
}

/// What words name.
#[derive(Drop)]
pub(crate) struct NamedPaths {
    /// The words, with the paths of its documents in the place of each folder, in the order of the bytes of their
    /// names.
    pub(crate) files: Vec<String>,
    /// The folders without a document.
    pub(crate) empty: Vec<String>,
}

impl NamedPaths {
    /// Puts what a word names last.
    fn put<R: Files + AllocGlobal>(&mut self, rt: &R, word: &str) -> io::Result<()> {
        let before = self.files.len();
        put_word(rt, word, &mut self.files)?;
        if self.files.len() == before {
            self.empty.push(String::from_str(rt.alloc(), word)?)?;
        }
        Ok(())
    }
}

/// What the words name; where a folder can't be read, that is told on standard error.
pub(crate) fn paths_of<R: Files + Eprint + AllocGlobal>(
    rt: &R,
    words: &[&str],
) -> Result<NamedPaths, ServeFault> {
    let alloc = rt.alloc();
    let mut paths = NamedPaths {
        files: Vec::new(alloc),
        empty: Vec::new(alloc),
    };
    for &word in words {
        if let Err(cause) = paths.put(rt, word) {
            return Err(tell_unread(rt, Source::named(word), cause));
        }
    }
    Ok(paths)
}
