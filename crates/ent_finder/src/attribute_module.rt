//! What a module of attributes promises.

ghost use Rattle.std.specs.Prelude.{◌≡◌, ◌≢◌, ◌≤◌, ℕ, List, [], IfSome, None, OnErr, OnOk, slice_get};
ghost use Rattle.std.specs.FinMap as finmap;
ghost use Rattle.std.specs.Option.{option_copied, option_map};
ghost use Rattle.ent_values.specs.Bags.{AllOfType};
ghost use Rattle.ent_finder.specs.Looking.{bag_found, values_of};
ghost use Rattle.ent_finder.specs.RowEntry.{row_entry};
ghost use Rattle.ent_finder.specs.Rows.{Source, filled, supports, values_at, with_row_put};

use crate::row::{AttrKey, Row, RowKey};
use ent_values::{Bag, Items, Value};
use std::alloc::AllocError;

/// Holds values of attributes of entities, in rows by their keys. The rows stand in the order of their keys.
pub trait AttributeFinderModule: Drop {
    // The categories that it supports, and its rows, empty ones too.
    ghost source: { Self → Source };

    /// Whether it can hold values of that category. It takes no memory.
    fn supports(&self, category: &str) -> bool
        ensures { result ≡ supports category.now (source self.now) };

    /// Puts into the bag the values of the rows that the key names, of the row without an issuer first, then by
    /// issuer in byte order (section 7.3.5). After a refusal the bag is empty, as before.
    fn find(&self, key: &AttrKey, bag: &mut Bag) -> Result<(), AllocError>
        requires datatype { bag.old.datatype ≡ key.now.datatype }
        requires empty { bag.old.values ≡ [] }
        ensures ok { OnOk result (bag.new ≡ bag_found key.now (source self.now).rows) }
        ensures err { OnErr result (bag.new ≡ bag.old) }

        // Memory is asked for values that are found alone, so a look that finds none is not refused.
        ensures memory { OnErr result (values_of key.now (filled (source self.now).rows) ≢ []) };

    /// The values of the rows that the key names, where one of these rows has them all. It takes no memory.
    fn sole(&self, key: &AttrKey) -> Option<&[Value]>
        ensures value { IfSome result (λ v. v.now ≡ values_of key.now (filled (source self.now).rows)) }

        // Each has the key's type.
        ensures types { IfSome result (λ v. AllOfType key.now.datatype v.now) };

    /// Exchanges what is in the row of a key with `values`. The row is made if it isn't there; where it is, the
    /// exchange takes no memory, so that a second one undoes the first.
    fn swap_row(&mut self, key: &RowKey, values: &mut Items<Value>) -> Result<(), AllocError>
        requires { AllOfType key.now.datatype values.old }
        ensures swapped { OnOk result (source self.new ≡ with_row_put (source self.old) key.now values.old) }
        ensures taken { OnOk result (values.new ≡ values_at (source self.old).rows key.now) }

        // What comes out has the key's type too.
        ensures own { AllOfType key.now.datatype values.new }

        // It is refused only where the row isn't there, and then nothing is changed.
        ensures absent { OnErr result (finmap.get (source self.old).rows key.now ≡ None) }
        ensures kept { OnErr result (source self.new ≡ source self.old) }
        ensures stayed { OnErr result (values.new ≡ values.old) };

    /// The row at an index, counted from 0. It takes no memory.
    fn row_at(&self, index: usize) -> Option<&Row>
        ensures row { option_map row_entry (option_copied result)
            ≡ slice_get (finmap.entries (source self.now).rows) index }

        // Each row has an index.
        ensures indexed { finmap.len (source self.now).rows ≤ usize.MAX };
}
