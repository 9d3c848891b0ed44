//! What an evaluation asks of what is held.

ghost use Rattle.std.specs.Prelude.{◌≡◌, [], IfSome, OnErr, OnOk};
ghost use Rattle.std.specs.Option.{option_copied};
ghost use Rattle.ent_values.specs.Bags.{AllOfType};
ghost use Rattle.ent_request.specs.Looks.{Looks};

use ent_finder::AttrKey;
use ent_policy::{Document, Reference};
use ent_values::{Bag, Date, DateTime, Time, Value};
use std::alloc::AllocError;

/// Gives the look-ups of an evaluation, which asks nothing else of what is held.
pub trait LookUps {
    ghost looks: { Self → Looks };

    /// The root, if there is one.
    fn root(&self) -> &Option<Reference>
        ensures { result.now ≡ (looks self.now).root };

    /// The document that a reference names, if there is one.
    fn document(&self, reference: &Reference) -> Option<&Document>
        ensures { option_copied result ≡ (looks self.now).document reference.now };

    /// Puts the values that a key names into an empty bag of its type. After a refusal the bag is empty, as before.
    fn values(&self, key: &AttrKey, bag: &mut Bag) -> Result<(), AllocError>
        requires datatype { bag.old.datatype ≡ key.now.datatype }
        requires empty { bag.old.values ≡ [] }
        ensures ok { OnOk result (bag.new ≡ record {
          datatype = key.now.datatype;
          values = (looks self.now).values key.now;
        }) }
        ensures err { OnErr result (bag.new ≡ bag.old) };

    /// The values that a key names, where they lie in one place. It takes no memory.
    fn sole(&self, key: &AttrKey) -> Option<&[Value]>
        ensures value { IfSome result (λ v. v.now ≡ (looks self.now).values key.now) }

        // Each has the key's type.
        ensures types { IfSome result (λ v. AllOfType key.now.datatype v.now) };

    /// The date, if it is known.
    fn date(&self) -> Option<Date>
        ensures { result ≡ (looks self.now).date };

    /// The time of day, if it is known.
    fn time(&self) -> Option<Time>
        ensures { result ≡ (looks self.now).time };

    /// The date and time, if both are known.
    fn date_time(&self) -> Option<DateTime>
        ensures { result ≡ (looks self.now).date_time };
}
