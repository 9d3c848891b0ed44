//! Where to look first.

use std::array;
use std::cell::Cell;
use std::marker::Model;

/// So many places are kept.
const PLACES: usize = 4096;

/// So many bytes of a text's end count in a number.
const MIXED_BYTES: usize = 4;

/// What a number is multiplied with for each of them.
const MIXING_FACTOR: usize = 31;

/// For what was found last, by a number made of what was asked for, where that was. Something else may stand there by
/// now, or what is asked for may share its number with another: what is kept is a place to look first, and nothing
/// that is found depends on it. The places stand in the value itself, so no memory is asked for.
#[derive(Drop)]
pub struct Hints {
    places: [Cell<usize>; PLACES],
}

impl Model for Hints {
    ghost Value = { Unit {0} };

    ghost view = { λ _. tt };
}

impl Hints {
    /// Each place is 0.
    ///
    /// Its contract leaves open: all of it: a hint is where to look first, and nothing rests on it.
    pub fn new() -> Hints {
        Hints {
            places: array::from_fn(|_| Cell::new(0)),
        }
    }

    /// The place that is kept under a number.
    ///
    /// Its contract leaves open: all of it: a hint is where to look first, and nothing rests on it.
    pub fn place(&self, number: usize) -> usize {
        self.places[number % PLACES].get()
    }

    /// Keeps a place under a number.
    pub fn keep(&self, number: usize, place: usize) {
        self.places[number % PLACES].set(place);
    }
}

/// A number made of another and of the end of a text.
///
/// Its contract leaves open: all of it: it is a number for a hint.
pub fn mixed(number: usize, text: &str) -> usize {
    let mut mixed = number;
    for byte in text.as_bytes().iter().rev().take(MIXED_BYTES) {
        mixed = mixed.wrapping_mul(MIXING_FACTOR) ^ usize::from(*byte);
    }
    mixed
}
