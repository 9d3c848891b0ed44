//! Whether cases by what was found are of use.

/// So many tries are counted before it is told.
const TRIES: usize = 1024;

/// After so many it is counted anew.
const MOST_TRIES: usize = 16_384;

/// Of how many tries so many found a case by what was found.
#[derive(Clone, Copy)]
pub(crate) struct Front {
    tries: usize,
    hits: usize,
}

impl Front {
    // Before the first try.
    pub(crate) fn new() -> Front {
        Front { tries: 0, hits: 0 }
    }

    // A try, which isn't known to have found one.
    pub(crate) fn tried(&mut self) {
        if self.tries >= MOST_TRIES {
            *self = Front::new();
        }
        self.tries = self.tries.saturating_add(1);
    }

    // The latest try found one.
    pub(crate) fn hit(&mut self) {
        self.hits = self.hits.saturating_add(1);
    }

    // Whether half of them found one, or there were few.
    pub(crate) fn is_of_use(&self) -> bool {
        self.tries < TRIES || self.hits >= self.tries / 2
    }
}
