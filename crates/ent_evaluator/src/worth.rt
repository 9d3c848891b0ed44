//! Whether tests are worth their search.

/// So many evaluations go without tests at first, and after what was known was forgotten and had served.
const WAIT: usize = 64;

/// So many evaluations go without where it served fewer than so many.
const SERVES: usize = 1024;

/// So many tries are counted before it is told whether they are of use.
const TRIES: usize = 512;

/// So many evaluations go without, where they aren't.
const PAUSE: usize = 4096;

/// How many evaluations go without tests yet; of how many tries with them so many were answered by what was known, with
/// nothing learnt for them; how many were answered since that was begun; and how much was known before the latest.
#[derive(Clone, Copy)]
pub(crate) struct Worth {
    pause: usize,
    tries: usize,
    hits: usize,
    served: usize,
    known: usize,
}

impl Worth {
    // Before the first evaluation.
    pub(crate) fn new() -> Worth {
        Worth {
            pause: WAIT,
            tries: 0,
            hits: 0,
            served: 0,
            known: 0,
        }
    }

    // Whether tests are to be tried for an evaluation, which is counted.
    pub(crate) fn is_tried(&mut self) -> bool {
        if self.pause > 0 {
            self.pause -= 1;
            return false;
        }
        if self.tries >= TRIES {
            return self.goes_on();
        }
        self.tries += 1;
        true
    }

    // After some tries: of these a quarter is to have been answered so, else there is a pause.
    fn goes_on(&mut self) -> bool {
        if self.hits < TRIES / 4 {
            self.rest();
            return false;
        }
        self.tries = TRIES / 2;
        self.hits /= 2;
        true
    }

    // A pause.
    pub(crate) fn rest(&mut self) {
        self.pause = PAUSE;
        self.tries = 0;
        self.hits = 0;
    }

    // A pause after what was known was forgotten, which is short where it served.
    pub(crate) fn wait(&mut self) {
        self.pause = if self.served < SERVES { SERVES } else { WAIT };
        self.served = 0;
    }

    // A try begins, where so much is known.
    pub(crate) fn begin(&mut self, known: usize) {
        self.known = known;
    }

    // It found a case, or its answer was joined, and so much is known then. Where that is more, it served as little
    // as an evaluation.
    pub(crate) fn hit(&mut self, known: usize) {
        self.served = self.served.saturating_add(1);
        if known == self.known {
            self.hits = self.hits.saturating_add(1);
        }
    }
}
