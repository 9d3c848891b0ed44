//! What a review holds and lists, to be read out. Nothing here takes memory.

ghost use Rattle.std.specs.Prelude.{◌≡◌, option_map, slice_get};
ghost use Rattle.ent_eval.specs.LooksOf.{held_by};
ghost use Rattle.ent_table.specs.Names.{list_of};

use crate::edit::List;
use crate::limits::Limits;
use crate::review::Review;
use ent_eval::{Evaluates, Pdp};
use ent_values::Text;

impl<E: Evaluates> Review<E> {
    /// The decision point of which the table tells.
    ///
    /// Its contract is an equation.
    pub fn pdp(&self) -> &Pdp<E::Attributes, E::Policies>
        ensures held { held_by result.now ≡ self.now.state.held }
        ensures counted { result.now.evaluations ≡ self.now.evaluations }
    {
        self.parts.pdp()
    }

    /// How large the review may grow.
    ///
    /// Its contract is an equation.
    pub fn limits(&self) -> Limits
        ensures { result ≡ self.now.state.limits }
    {
        self.parts.limits
    }

    /// The names of a list, in order.
    ///
    /// Its contract is an equation.
    pub fn names(&self, list: List) -> &[Text]
        ensures { result.now ≡ list_of list self.now.state.names }
    {
        self.parts.table.names.shared(list)
    }

    /// The name at a place of a list, counted from 0, if the list has so many.
    ///
    /// Its contract is an equation.
    pub fn name(&self, list: List, place: usize) -> Option<&str>
        ensures { option_map (λ name. name.now) result ≡ slice_get (list_of list self.now.state.names) place }
    {
        match self.names(list).get(place) {
            None => None,
            Some(name) => Some(name.as_str()),
        }
    }
}
