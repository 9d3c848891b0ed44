//! Cases by their ways.

ghost use Rattle.std.specs.Prelude.{◌≡◌, [], IfSome};
ghost use Rattle.memo_answers.specs.Told.{AreAmong, HasWay, IsPut};

use crate::marked::{MarkedCases, mark};
use crate::told::ToldAnswer;
use std::alloc::{AllocError, Global};
use std::marker::Model;
use std::mem;

/// Cases, the older ones apart: once the latest are many, the older ones are dropped.
#[derive(Drop)]
pub struct ToldCases {
    older: MarkedCases,
    latest: MarkedCases,
}

impl Model for ToldCases {
    ghost use Rattle.std.specs.Prelude.{◌++◌, List};
    ghost use Rattle.memo_answers.specs.declared.told.ToldAnswer.{ToldAnswer};

    ghost Value = { List ToldAnswer };

    ghost view = { λ c. c.older ++ c.latest };
}

impl ToldCases {
    /// No cases, for which nothing is allocated.
    ///
    /// Its contract is an equation.
    pub fn new(alloc: Global) -> ToldCases
        ensures { result ≡ [] }
    {
        ToldCases {
            older: MarkedCases::new(alloc),
            latest: MarkedCases::new(alloc),
        }
    }

    /// A case of a way, if one is found.
    ///
    /// Its contract leaves open: when it answers `None`, which it may always: its caller then joins or evaluates.
    pub fn find(&self, way: &[u32]) -> Option<&ToldAnswer>
        ensures { IfSome result (λ c. HasWay self.now way.now c.now) }
    {
        let mark = mark(way);
        match self.latest.find(mark, way) {
            Some(case) => Some(case),
            None => self.older.find(mark, way),
        }
    }

    /// Puts a case behind the others, of which the older ones are dropped where there are many. After a refusal it may
    /// be there or not.
    ///
    /// Its contract leaves open: whether the case is kept, which cases go, and in which order they stand: one that does
    /// nothing would do.
    pub fn put(&mut self, alloc: Global, case: ToldAnswer) -> Result<(), AllocError>
        ensures { IsPut case self.old self.new }
    {
        self.make_room(alloc);
        self.latest.put(case)
    }

    // Drops the older ones where there are many.
    fn make_room(&mut self, alloc: Global)
        ensures { AreAmong self.old self.new }
    {
        if self.latest.are_many() {
            self.older = mem::replace(&mut self.latest, MarkedCases::new(alloc));
        }
    }
}
