//! Cases by marks of their ways.

ghost use Rattle.std.specs.Prelude.{◌≡◌, [], IfSome, IsTrue};
ghost use Rattle.memo_answers.specs.Told.{HasWay, IsPut};

use crate::told::ToldAnswer;
use std::alloc::{AllocError, Global};
use std::collections::BTreeMap;
use std::marker::Model;

/// So many cases are full.
const MANY_CASES: usize = 8_192;

/// So many numbers of their ways are, too.
const MANY_NUMBERS: usize = 131_072;

/// Cases, and the place of the latest one of each mark of a way. A case is taken by its whole way alone, so that of two
/// ways with one mark one isn't found.
#[derive(Drop)]
pub(crate) struct MarkedCases {
    cases: Vec<ToldAnswer>,
    places: BTreeMap<u64, usize>,
    numbers: usize,
}

impl Model for MarkedCases {
    ghost use Rattle.std.specs.Prelude.{List};
    ghost use Rattle.memo_answers.specs.declared.told.ToldAnswer.{ToldAnswer};

    ghost Value = { List ToldAnswer };

    ghost view = { λ m. m.cases.items };
}

impl MarkedCases {
    // No cases, for which nothing is allocated.
    pub(crate) fn new(alloc: Global) -> MarkedCases
        ensures { result ≡ [] }
    {
        MarkedCases {
            cases: Vec::new(alloc),
            places: BTreeMap::new(alloc),
            numbers: 0,
        }
    }

    // Whether there are many, or their ways are long.
    pub(crate) fn are_many(&self) -> bool {
        self.cases.len() >= MANY_CASES || self.numbers >= MANY_NUMBERS
    }

    // A case of a way that has this mark, if one is found.
    pub(crate) fn find(&self, mark: u64, way: &[u32]) -> Option<&ToldAnswer>
        ensures { IfSome result (λ c. HasWay self.now way.now c.now) }
    {
        let place = *self.places.get(&mark)?;
        let case = self.cases.get(place)?;
        if is_same(case.way.as_slice(), way) {
            Some(case)
        } else {
            None
        }
    }

    // Puts a case behind the others. After a refusal it may be there or not.
    pub(crate) fn put(&mut self, case: ToldAnswer) -> Result<(), AllocError>
        ensures { IsPut case self.old self.new }
    {
        let place = self.cases.len();
        let mark = mark(case.way.as_slice());
        self.numbers = self.numbers.saturating_add(case.way.len());
        self.cases.push(case)?;
        self.places.insert(mark, place)?;
        Ok(())
    }
}

/// The first mark, of an empty way (an offset of Fowler, Noll and Vo's hash).
const FIRST: u64 = 0xcbf2_9ce4_8422_2325;

/// What a mark is multiplied by for each number (its prime).
const FACTOR: u64 = 0x0100_0000_01b3;

// A mark of a way, which few other ways have.
pub(crate) fn mark(way: &[u32]) -> u64 {
    let mut mark = FIRST;
    for number in way {
        mark = (mark ^ u64::from(*number)).wrapping_mul(FACTOR);
    }
    mark
}

// Whether two ways are equal.
fn is_same(first: &[u32], second: &[u32]) -> bool
    ensures { IsTrue result → first.now ≡ second.now }
{
    first == second
}
