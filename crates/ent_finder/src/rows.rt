//! A list of rows in the order of their keys.

ghost use Rattle.std.specs.Prelude.{◌≡◌, ◌≢◌, ◌≤◌, ◌++◌, [], false, length, true};
ghost use Rattle.std.specs.Prelude.{IfErr, IfOk, IfSome, None, OnErr, OnOk, is_some, slice_range};
ghost use Rattle.std.specs.FinMap as finmap;
ghost use Rattle.std.specs.List.{filter};
ghost use Rattle.ent_values.specs.Bags.{AllOfType};
ghost use Rattle.ent_finder.specs.Looking.{names_row, values_of};
ghost use Rattle.ent_finder.specs.proofs_only.Order.{issuer_cmp, named_cmp};
ghost use Rattle.ent_finder.specs.proofs_only.Places.{IsPlace, IsSeat, is_at};
ghost use Rattle.ent_finder.specs.RowEntry.{RowsAreSorted, row_entries, rows_of};
ghost use Rattle.ent_finder.specs.Rows.{filled, row_cmp, values_at};

use crate::passing::count_passing;
use crate::row::{AttrKey, Row, RowKey};
use crate::sole::either;
use ent_values::{Bag, Items, Text, Value};
use std::alloc::{AllocError, Global};
use std::cmp::Ordering;
use std::mem;

/// Where the row of a key is, or where it would go.
fn place(rows: &[Row], key: &RowKey) -> Result<usize, usize>
    requires { RowsAreSorted rows.now }
    ensures found { IfOk result (λ i. IsPlace row_cmp key.now (row_entries rows.now) i
        × (is_at row_cmp key.now (row_entries rows.now) i ≡ true)) }
    ensures absent { IfErr result (λ i. IsPlace row_cmp key.now (row_entries rows.now) i
        × (is_at row_cmp key.now (row_entries rows.now) i ≡ false)) }
{
    rows.binary_search_by(|row| row.key.cmp(key))
}

/// Whether the row of a key is there.
///
/// Its contract is an equation.
pub fn has_row(rows: &[Row], key: &RowKey) -> bool
    requires { RowsAreSorted rows.now }
    ensures { result ≡ is_some (finmap.get (rows_of rows.now) key.now) }
{
    place(rows, key).is_ok()
}

/// The index of the row of a key, which is made if it isn't there.
fn make_row(alloc: Global, rows: &mut Vec<Row>, key: &RowKey) -> Result<usize, AllocError>
    requires { RowsAreSorted rows.old.items }
    ensures seat { IfOk result (IsSeat row_cmp [] key.now (row_entries rows.old.items) (row_entries rows.new.items)) }
    ensures kept { OnErr result (rows.new.items ≡ rows.old.items) }
    ensures absent { OnErr result (finmap.get (rows_of rows.old.items) key.now ≡ None) }
{
    match place(rows, key) {
        Ok(index) => Ok(index),
        Err(index) => {
            let key = key.copy(alloc)?;
            let values = Items::new(alloc);
            rows.insert(index, Row { key, values })?;
            Ok(index)
        }
    }
}

/// Exchanges what is in the row of a key with `values`.
///
/// Its contract is an equation but for memory.
pub fn swap_row(
    alloc: Global,
    rows: &mut Vec<Row>,
    key: &RowKey,
    values: &mut Items<Value>,
) -> Result<(), AllocError>
    requires sorted { RowsAreSorted rows.old.items }
    requires types { AllOfType key.now.datatype values.old }
    ensures sorted { RowsAreSorted rows.new.items }
    ensures swapped { OnOk result (rows_of rows.new.items ≡ finmap.insert (rows_of rows.old.items) key.now values.old) }
    ensures taken { OnOk result (values.new ≡ values_at (rows_of rows.old.items) key.now) }
    ensures own { AllOfType key.now.datatype values.new }
    ensures absent { OnErr result (finmap.get (rows_of rows.old.items) key.now ≡ None) }
    ensures kept { OnErr result (rows_of rows.new.items ≡ rows_of rows.old.items) }
    ensures stayed { OnErr result (values.new ≡ values.old) }
{
    let index = make_row(alloc, rows, key)?;
    mem::swap(&mut rows[index].values, values);
    Ok(())
}

/// How an issuer stands to the one that is wanted, if one is.
fn issuer_order(issuer: &Option<Text>, wanted: &Option<Text>) -> Ordering
    ensures { result ≡ issuer_cmp issuer.now wanted.now }
{
    match wanted {
        None => Ordering::Equal,
        Some(_) => issuer.cmp(wanted),
    }
}

/// How the key of a row stands to those that a key names.
///
/// Its contract is an equation.
pub fn order(row: &RowKey, key: &AttrKey) -> Ordering
    ensures { result ≡ named_cmp row.now key.now }
{
    row.category
        .as_str()
        .cmp(key.category.as_str())
        .then_with(|| row.entity.as_str().cmp(key.entity.as_str()))
        .then_with(|| row.attribute.as_str().cmp(key.attribute.as_str()))
        .then_with(|| row.datatype.cmp(&key.datatype))
        .then_with(|| issuer_order(&row.issuer, &key.issuer))
}

/// Where the rows that a key names begin, and where they end.
fn bounds(rows: &[Row], key: &AttrKey) -> (usize, usize)
    requires { RowsAreSorted rows.now }
    ensures ordered { result.0 ≤ result.1 }
    ensures within { result.1 ≤ length rows.now }
    ensures named { slice_range rows.now result.0 result.1 ≡ filter (λ r. names_row key.now r.key) rows.now }
{
    let start = rows.partition_point(|row| order(&row.key, key).is_lt());
    let named = count_passing(&rows[start..], |row| order(&row.key, key).is_le());
    (start, start + named)
}

/// Puts copies of the values last.
///
/// Its contract is an equation but for memory.
pub fn add_all(alloc: Global, bag: &mut Bag, values: &[Value]) -> Result<(), AllocError>
    requires { AllOfType bag.old.datatype values.now }
    ensures value { OnOk result (bag.new ≡ record bag.old { values = bag.old.values ++ values.now }) }
    ensures memory { OnErr result (values.now ≢ []) }
{
    for value in values {
        bag.push(value.copy(alloc)?)?;
    }
    Ok(())
}

/// Puts copies of the values of the rows that a key names last.
///
/// Its contract is an equation but for memory.
pub fn add_named(
    alloc: Global,
    bag: &mut Bag,
    rows: &[Row],
    key: &AttrKey,
) -> Result<(), AllocError>
    requires sorted { RowsAreSorted rows.now }
    requires datatype { bag.old.datatype ≡ key.now.datatype }
    ensures value { OnOk result (bag.new ≡ record bag.old {
      values = bag.old.values ++ values_of key.now (filled (rows_of rows.now));
    }) }
    ensures memory { OnErr result (values_of key.now (filled (rows_of rows.now)) ≢ []) }
{
    let (start, end) = bounds(rows, key);
    let named = &rows[start..end];
    for row in named {
        add_all(alloc, bag, row.values.as_slice())?;
    }
    Ok(())
}

/// The values of the rows that a key names, where one of these rows has them all.
///
/// Its contract leaves open: when it answers `None`, which it may always: its caller then makes a list.
pub fn named_in_one<'a>(rows: &'a [Row], key: &AttrKey) -> Option<&'a [Value]>
    requires { RowsAreSorted rows.now }
    ensures value { IfSome result (λ v. v.now ≡ values_of key.now (filled (rows_of rows.now))) }
    ensures types { IfSome result (λ v. AllOfType key.now.datatype v.now) }
{
    let (start, end) = bounds(rows, key);
    let named = &rows[start..end];
    let mut so_far: &'a [Value] = &[];
    for row in named {
        so_far = either(so_far, row.values.as_slice())?;
    }
    Some(so_far)
}
