//! The values of designators, each found once for an evaluation.

ghost use Rattle.std.specs.Prelude.{◌≡◌, IfOk};
ghost use Rattle.ent_request.specs.Sources.{designated_values};

use ent_policy::Designator;
use ent_request::{Asked, LentBag, LookUps, Request, designated};
use std::alloc::{AllocError, Global};
use std::marker::Model;

/// So many bags are lent at most: those that are found later are found again each time.
const MOST_LENT: usize = 32;

// What is held and a request, with what designators found of both: their bags, which are lent to each that asks again.
#[derive(Drop)]
pub(crate) struct Lender<'a, L: LookUps> {
    held: &'a L,
    request: &'a Request,
    found: Vec<FoundBag<'a>>,
}

// What was asked for, and the bag that was found.
#[derive(Drop)]
struct FoundBag<'a> {
    asked: Asked,
    bag: LentBag<'a>,
}

impl<'a, L: LookUps> Model for Lender<'a, L> {
    ghost use Rattle.std.specs.List.{AllByRecursion};
    ghost use Rattle.ent_walk.specs.proofs_only.Basis.{Basis};
    ghost use Rattle.ent_walk.specs.proofs_only.Lender.{IsFound};

    ghost Value = { Basis L };

    ghost view = { λ l. record { held = l.held.now; request = l.request.now } };

    ghost invariant = { λ l. AllByRecursion (IsFound (L.looks l.held.now) l.request.now) l.found.items };
}

impl<'a, L: LookUps> Lender<'a, L> {
    // Over what is held, and a request of which nothing was asked for.
    pub(crate) fn over(alloc: Global, held: &'a L, request: &'a Request) -> Lender<'a, L>
        ensures held { result.held ≡ held.now }
        ensures request { result.request ≡ request.now }
    {
        Lender {
            held,
            request,
            found: Vec::new(alloc),
        }
    }

    // What is held.
    pub(crate) fn held(&self) -> &'a L
        ensures { result.now ≡ self.now.held }
    {
        self.held
    }

    // The request.
    pub(crate) fn request(&self) -> &'a Request
        ensures { result.now ≡ self.now.request }
    {
        self.request
    }

    // The values of a designator, which are lent from then on.
    pub(crate) fn bag(
        &mut self,
        alloc: Global,
        designator: &Designator,
    ) -> Result<LentBag<'a>, AllocError>
        ensures bag { IfOk result (λ b. b ≡ record {
          datatype = designator.now.datatype;
          values = designated_values (L.looks self.old.held) self.old.request designator.now;
        }) }
        ensures same { self.new ≡ self.old }
    {
        for found in &self.found {
            if found.asked.is_of(designator) {
                return found.bag.copy();
            }
        }
        let bag = designated(alloc, self.held, self.request, designator)?;
        if self.found.len() < MOST_LENT {
            let asked = Asked::of(alloc, designator)?;
            self.found.push(FoundBag {
                asked,
                bag: bag.copy()?,
            })?;
        }
        Ok(bag)
    }
}
