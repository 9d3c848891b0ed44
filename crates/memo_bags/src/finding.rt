//! What was found for names of listed requests.

ghost use Rattle.std.specs.Prelude.{◌≡◌};
ghost use Rattle.memo_bags.specs.Ways.{about_of};

use ent_request::NamePlace;

/// A question that is about one of a request's names, by its number.
#[derive(Clone, Copy)]
pub struct About {
    pub question: u32,
    pub place: NamePlace,
}

/// Such a question, and the bag that it found, by its own number.
#[derive(Clone, Copy)]
pub struct Finding {
    pub question: u32,
    pub place: NamePlace,
    pub bag: u32,
}

impl Finding {
    /// The question.
    ///
    /// Its contract is an equation.
    pub(crate) fn about(self) -> About
        ensures { result ≡ about_of self }
    {
        About {
            question: self.question,
            place: self.place,
        }
    }
}
