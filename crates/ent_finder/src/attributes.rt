//! What the layers above need of where values of attributes are held.

ghost use Rattle.std.specs.Prelude.{◌≡◌, ◌≢◌, ◌<◌, ◌≤◌, List, [], IfSome, None, OnErr, OnOk, length, map, slice_get};
ghost use Rattle.std.specs.FinMap as finmap;
ghost use Rattle.std.specs.Option.{option_copied, option_map};
ghost use Rattle.ent_values.specs.Bags.{AllOfType};
ghost use Rattle.ent_finder.specs.Looking.{looked};
ghost use Rattle.ent_finder.specs.RowEntry.{row_entry};
ghost use Rattle.ent_finder.specs.Rows.{Source, filled_source, source_at, supports, values_at, with_row_in};

use crate::row::{AttrKey, Row, RowKey};
use ent_values::{Bag, Items, Value};
use std::alloc::AllocError;

/// Values of attributes in several modules, which are asked in their order.
pub trait Attributes: Drop {
    // Of each module.
    ghost sources: { Self → List Source };

    /// How many modules there are.
    fn len(&self) -> usize
        ensures { result ≡ length (sources self.now) };

    /// Whether the module of that number can hold values of a category. It takes no memory.
    fn supports(&self, number: usize, category: &str) -> bool
        requires { number < length (sources self.now) }
        ensures { result ≡ supports category.now (source_at (sources self.now) number) };

    /// Puts into the bag the values of the first module that supports the key's category and has any that the key
    /// names. After a refusal the bag is empty, as before.
    fn look(&self, key: &AttrKey, bag: &mut Bag) -> Result<(), AllocError>
        requires datatype { bag.old.datatype ≡ key.now.datatype }
        requires empty { bag.old.values ≡ [] }
        ensures ok { OnOk result (bag.new ≡ record {
          datatype = key.now.datatype;
          values = looked key.now (map filled_source (sources self.now));
        }) }
        ensures err { OnErr result (bag.new ≡ bag.old) }

        // Memory is asked for values that are found alone, so a look that finds none is not refused.
        ensures memory { OnErr result (looked key.now (map filled_source (sources self.now)) ≢ []) };

    /// The values of the first module that supports the key's category and has any that the key names, where one row
    /// there has them all. It takes no memory.
    fn sole(&self, key: &AttrKey) -> Option<&[Value]>
        ensures value { IfSome result (λ v. v.now ≡ looked key.now (map filled_source (sources self.now))) }

        // Each has the key's type.
        ensures types { IfSome result (λ v. AllOfType key.now.datatype v.now) };

    /// Exchanges what is in the row of a key with `values`, in the module of that number. The row is made if it isn't
    /// there; where it is, the exchange takes no memory, so that a second one undoes the first.
    fn swap_row(
        &mut self,
        number: usize,
        key: &RowKey,
        values: &mut Items<Value>,
    ) -> Result<(), AllocError>
        requires number { number < length (sources self.old) }
        requires types { AllOfType key.now.datatype values.old }
        ensures swapped { OnOk result (sources self.new ≡ with_row_in (sources self.old) number key.now values.old) }
        ensures taken { OnOk result (values.new ≡ values_at (source_at (sources self.old) number).rows key.now) }

        // What comes out has the key's type too.
        ensures own { AllOfType key.now.datatype values.new }

        // It is refused only where the row isn't there, and then nothing is changed.
        ensures absent { OnErr result (finmap.get (source_at (sources self.old) number).rows key.now ≡ None) }
        ensures kept { OnErr result (sources self.new ≡ sources self.old) }
        ensures stayed { OnErr result (values.new ≡ values.old) };

    /// The row at an index of a module, counted from 0. It takes no memory.
    fn row_at(&self, number: usize, index: usize) -> Option<&Row>
        requires { number < length (sources self.now) }
        ensures row { option_map row_entry (option_copied result)
            ≡ slice_get (finmap.entries (source_at (sources self.now) number).rows) index }

        // Each row has an index.
        ensures indexed { finmap.len (source_at (sources self.now) number).rows ≤ usize.MAX };
}
