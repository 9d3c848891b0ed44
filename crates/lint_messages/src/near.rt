//! Which of the known words is nearest to one that isn't known.

use std::alloc::{AllocError, Global};
use strsim::levenshtein;

/// How far a word may be from the one that is meant.
const FAR: usize = 3;

/// The most bytes of a word that is compared: a comparison takes their square.
const MOST_BYTES: usize = 64;

/// With so many known words one is compared at most.
const MOST_COMPARED: usize = 1000;

/// How many characters have to be put in, left out or changed to make one text of the other, whatever their case.
fn distance(alloc: Global, first: &str, second: &str) -> Result<usize, AllocError> {
    let first = first.to_ascii_lowercase(alloc)?;
    let second = second.to_ascii_lowercase(alloc)?;
    levenshtein(alloc, first.as_str(), second.as_str())
}

/// The search for the known word that is nearest to one, which is asked of each known word in turn.
#[derive(Drop)]
pub(crate) struct NearestWord<'w> {
    word: &'w str,
    /// What is nearer is less far than this.
    far: usize,
    /// With so many known words it may still be compared.
    left: usize,
}

impl<'w> NearestWord<'w> {
    /// The search for the word that was meant.
    pub(crate) fn new(word: &'w str) -> NearestWord<'w> {
        NearestWord {
            word,
            far: FAR + 1,
            left: MOST_COMPARED,
        }
    }

    /// Whether a known word is of a length with which it can be nearer than each before it.
    fn is_of_such_length(&self, known: &str) -> bool {
        let longer = self.word.len().max(known.len());
        longer <= MOST_BYTES && self.word.len().abs_diff(known.len()) < self.far
    }

    /// Whether a known word is nearer than each before it, and not too far for a slip.
    pub(crate) fn is_nearer(&mut self, alloc: Global, known: &str) -> Result<bool, AllocError> {
        if self.left == 0 || !self.is_of_such_length(known) {
            return Ok(false);
        }
        self.left -= 1;
        let far = distance(alloc, self.word, known)?;
        let longer = self.word.len().max(known.len());
        if far >= self.far || far.saturating_mul(2) > longer {
            return Ok(false);
        }
        self.far = far;
        Ok(true)
    }
}

/// The known word that is nearest to a word, if one is near.
pub(crate) fn nearest<'a>(
    alloc: Global,
    word: &str,
    known: &[&'a str],
) -> Result<Option<&'a str>, AllocError> {
    let mut search = NearestWord::new(word);
    let mut best = None;
    for candidate in known {
        if search.is_nearer(alloc, candidate)? {
            best = Some(*candidate);
        }
    }
    Ok(best)
}

/// The question whether that word was meant, nothing where none is near.
pub(crate) fn did_you_mean(alloc: Global, meant: Option<&str>) -> Result<String, AllocError> {
    match meant {
        Some(word) => format!(in alloc; "; did you mean `{word}`?"),
        None => Ok(String::new(alloc)),
    }
}
