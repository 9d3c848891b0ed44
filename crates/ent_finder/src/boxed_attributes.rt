//! What is asked of one boxed module of attributes, with the clauses of a module.

ghost use Rattle.std.specs.Prelude.{◌≡◌, ◌≢◌, ◌≤◌, [], IfSome, None, OnErr, OnOk, slice_get};
ghost use Rattle.std.specs.FinMap as finmap;
ghost use Rattle.std.specs.Option.{option_copied, option_map};
ghost use Rattle.ent_values.specs.Bags.{AllOfType};
ghost use Rattle.ent_finder.specs.Looking.{bag_found, values_of};
ghost use Rattle.ent_finder.specs.RowEntry.{row_entry};
ghost use Rattle.ent_finder.specs.Rows.{filled, supports, values_at, with_row_put};

use crate::attribute_module::AttributeFinderModule;
use crate::row::{AttrKey, Row, RowKey};
use ent_values::{Bag, Items, Value};
use std::alloc::AllocError;

/// Its contract is an equation.
pub fn supports_in(store: &dyn AttributeFinderModule, category: &str) -> bool
    ensures { result ≡ supports category.now (source store.now) }
{
    store.supports(category)
}

/// Its contract is an equation but for memory.
pub fn find_in(
    store: &dyn AttributeFinderModule,
    key: &AttrKey,
    bag: &mut Bag,
) -> Result<(), AllocError>
    requires datatype { bag.old.datatype ≡ key.now.datatype }
    requires empty { bag.old.values ≡ [] }
    ensures ok { OnOk result (bag.new ≡ bag_found key.now (source store.now).rows) }
    ensures err { OnErr result (bag.new ≡ bag.old) }
    ensures memory { OnErr result (values_of key.now (filled (source store.now).rows) ≢ []) }
{
    store.find(key, bag)
}

/// Its contract leaves open: when it answers `None`, which it may always: its caller then makes a list.
pub fn sole_in<'a>(store: &'a dyn AttributeFinderModule, key: &AttrKey) -> Option<&'a [Value]>
    ensures value { IfSome result (λ v. v.now ≡ values_of key.now (filled (source store.now).rows)) }
    ensures types { IfSome result (λ v. AllOfType key.now.datatype v.now) }
{
    store.sole(key)
}

/// Its contract is an equation but for memory.
pub fn swap_in(
    store: &mut Box<dyn AttributeFinderModule>,
    key: &RowKey,
    values: &mut Items<Value>,
) -> Result<(), AllocError>
    requires { AllOfType key.now.datatype values.old }
    ensures swapped { OnOk result (source store.new ≡ with_row_put (source store.old) key.now values.old) }
    ensures taken { OnOk result (values.new ≡ values_at (source store.old).rows key.now) }
    ensures own { AllOfType key.now.datatype values.new }
    ensures absent { OnErr result (finmap.get (source store.old).rows key.now ≡ None) }
    ensures kept { OnErr result (source store.new ≡ source store.old) }
    ensures stayed { OnErr result (values.new ≡ values.old) }
{
    store.swap_row(key, values)
}

/// Its contract is an equation.
pub fn row_in(store: &dyn AttributeFinderModule, index: usize) -> Option<&Row>
    ensures row { option_map row_entry (option_copied result)
        ≡ slice_get (finmap.entries (source store.now).rows) index }
    ensures indexed { finmap.len (source store.now).rows ≤ usize.MAX }
{
    store.row_at(index)
}
