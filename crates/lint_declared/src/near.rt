//! Which of some words is nearest to one that isn't among them. Which one that is, is only tested.

use ent_values::Text;
use std::alloc::{AllocError, Global};
use strsim::osa_distance;

/// The most bytes of a word that is compared: a comparison takes their square.
const MOST_BYTES: usize = 64;

/// With so many words one is compared at most.
pub(crate) const MOST_COMPARED: usize = 1000;

/// How many edits are few for a word: one for three bytes.
fn few(wanted: &str) -> usize {
    (wanted.len() / 3).max(1)
}

/// By how many bytes a word is longer or shorter than the one that is wanted, if few edits can lead to it.
fn apart(wanted: &str, word: &str) -> Option<usize> {
    let apart = wanted.len().abs_diff(word.len());
    let longer = wanted.len().max(word.len());
    (apart <= few(wanted) && longer <= MOST_BYTES).then_some(apart)
}

/// How many edits lead from one word to the other, if they are few. A comparison takes one of those that are left, and
/// none is made where none is.
pub(crate) fn few_edits(
    alloc: Global,
    wanted: &str,
    word: &str,
    left: &mut usize,
) -> Result<Option<usize>, AllocError> {
    if *left == 0 || apart(wanted, word).is_none() {
        return Ok(None);
    }
    *left -= 1;
    let edits = osa_distance(alloc, wanted, word)?;
    Ok((edits <= few(wanted)).then_some(edits))
}

/// A word that may be near to one. Those of the nearest lengths are the least, and of these those taken first.
#[derive(PartialEq, Eq, PartialOrd, Ord, Drop)]
struct Candidate {
    apart: usize,
    number: usize,
    word: Text,
}

/// The words that may be near to one: no more than are compared.
#[derive(Drop)]
pub(crate) struct Candidates<'w> {
    wanted: &'w str,
    words: Vec<Candidate>,
}

impl<'w> Candidates<'w> {
    /// No words.
    pub(crate) fn new(alloc: Global, wanted: &'w str) -> Candidates<'w> {
        Candidates {
            wanted,
            words: Vec::new(alloc),
        }
    }

    /// Takes a word, if it may be near and not too many are taken.
    pub(crate) fn take(&mut self, alloc: Global, word: &str) -> Result<(), AllocError> {
        let number = self.words.len();
        if number == MOST_COMPARED {
            return Ok(());
        }
        if let Some(apart) = apart(self.wanted, word) {
            let word = Text::from_str(alloc, word)?;
            self.words.push(Candidate {
                apart,
                number,
                word,
            })?;
        }
        Ok(())
    }

    /// The word to which the fewest edits lead, if they are few and leave something of the one that is wanted; of those
    /// to which as many lead, the one that was taken first.
    pub(crate) fn nearest(self, alloc: Global) -> Result<Option<Text>, AllocError> {
        let wanted = self.wanted;
        let mut words = self.words;
        words.sort()?;
        let mut left = MOST_COMPARED;
        let mut least = (wanted.len(), 0);
        let mut nearest = None;
        for candidate in words {
            if candidate.apart > least.0 {
                break;
            }
            if let Some(edits) = few_edits(alloc, wanted, candidate.word.as_str(), &mut left)? {
                let found = (edits, candidate.number);
                if found < least {
                    least = found;
                    nearest = Some(candidate.word);
                }
            }
        }
        Ok(nearest)
    }
}
