//! Rows in the order of their keys, in blocks of a bounded length, so that a row that is made moves those of its own
//! block alone.

ghost use Rattle.std.specs.Prelude.{◌≡◌, ◌≢◌, ◌≤◌, ◌<◌, ◌+◌, [], ◌∷◌, if◌then◌else◌, length};
ghost use Rattle.std.specs.Prelude.{IfOk, IfSome, None, OnErr, OnOk, is_some, slice_get, slice_range};
ghost use Rattle.std.specs.FinMap as finmap;
ghost use Rattle.std.specs.List.{filter};
ghost use Rattle.std.specs.Option.{option_copied};
ghost use Rattle.ent_values.specs.Bags.{AllOfType};
ghost use Rattle.ent_finder.specs.Blocks.{rows_in};
ghost use Rattle.ent_finder.specs.proofs_only.Blocks.{IsHome, first_cmp, held_in};
ghost use Rattle.ent_finder.specs.Looking.{bag_found, names_row, values_of};
ghost use Rattle.ent_finder.specs.proofs_only.Order.{named_cmp};
ghost use Rattle.ent_finder.specs.RowEntry.{RowsAreSorted};
ghost use Rattle.ent_finder.specs.Rows.{filled, row_cmp, values_at};

use crate::block::Block;
use crate::hints::{Hints, mixed};
use crate::passing::count_passing;
use crate::row::{AttrKey, Row, RowKey};
use crate::rows;
use crate::sole::either;
use ent_values::{Bag, Items, Value};
use std::alloc::{AllocError, Global};
use std::cmp::Ordering;

/// A place in a block is below that.
const PLACES: usize = 1024;

/// A block of that many rows is halved before it gets one more.
const FULL: usize = 256;

/// How the key of the first row stands to a key.
fn first_to_row(block: &Block, key: &RowKey) -> Ordering
    ensures { result ≡ first_cmp (λ r. row_cmp r.key key.now) block.now.rows.items }
{
    match block.rows.first() {
        None => Ordering::Less,
        Some(row) => row.key.cmp(key),
    }
}

/// How the key of the first row stands to those that a key names.
fn first_to_named(block: &Block, key: &AttrKey) -> Ordering
    ensures { result ≡ first_cmp (λ r. named_cmp r.key key.now) block.now.rows.items }
{
    match block.rows.first() {
        None => Ordering::Less,
        Some(row) => rows::order(&row.key, key),
    }
}

/// The number of the block where the row of a key is, or where it would go.
fn home(blocks: &[Block], key: &RowKey) -> usize
    requires { RowsAreSorted (rows_in blocks.now) }
    ensures home { IsHome key.now blocks.now result }
    ensures within { 0 < length blocks.now → result < length blocks.now }
{
    let begun = blocks.partition_point(|block| first_to_row(block, key).is_le());
    begun.saturating_sub(1)
}

/// Whether the row of a key is there.
fn has_row(blocks: &[Block], key: &RowKey) -> bool
    requires { RowsAreSorted (rows_in blocks.now) }
    ensures { result ≡ is_some (finmap.get (held_in blocks.now) key.now) }
{
    match blocks.get(home(blocks, key)) {
        None => false,
        Some(block) => rows::has_row(&block.rows, key),
    }
}

/// Halves a block.
fn halve(blocks: &mut Vec<Block>, number: usize) -> Result<(), AllocError>
    requires { number < length blocks.old.items }
    ensures { rows_in blocks.new.items ≡ rows_in blocks.old.items }
{
    let half = blocks[number].rows.len() / 2;
    if half == 0 {
        return Ok(());
    }
    blocks.reserve(1)?;
    let rows = blocks[number].rows.split_off(half)?;
    blocks.insert(number + 1, Block { rows })?;
    Ok(())
}

/// Halves the block where the row of a key would go, if it is full.
fn make_room(blocks: &mut Vec<Block>, key: &RowKey) -> Result<(), AllocError>
    requires { RowsAreSorted (rows_in blocks.old.items) }
    ensures { rows_in blocks.new.items ≡ rows_in blocks.old.items }
{
    let number = home(blocks, key);
    if number < blocks.len() && blocks[number].rows.len() >= FULL {
        halve(blocks, number)?;
    }
    Ok(())
}

/// Makes room for the row of a key, if it isn't there. Gives how many rows there are to be, of that many that there
/// are.
fn count_with(blocks: &mut Vec<Block>, count: usize, key: &RowKey) -> Result<usize, AllocError>
    requires { RowsAreSorted (rows_in blocks.old.items) }
    ensures rows { rows_in blocks.new.items ≡ rows_in blocks.old.items }
    ensures few { IfOk result (λ n. n ≤ usize.MAX) }
    ensures count { IfOk result (λ n.
        n ≡ (if is_some (finmap.get (held_in blocks.old.items) key.now) then count else count + 1)) }
    ensures absent { OnErr result (finmap.get (held_in blocks.old.items) key.now ≡ None) }
{
    if has_row(blocks, key) {
        return Ok(count);
    }
    if count == usize::MAX {
        return Err(AllocError);
    }
    make_room(blocks, key)?;
    Ok(count + 1)
}

/// Makes the first block, of the row of a key with `values`, and leaves no values.
fn begin(
    alloc: Global,
    blocks: &mut Vec<Block>,
    key: &RowKey,
    values: &mut Items<Value>,
) -> Result<(), AllocError>
    requires empty { blocks.old.items ≡ [] }
    requires types { AllOfType key.now.datatype values.old }
    ensures sorted { RowsAreSorted (rows_in blocks.new.items) }
    ensures swapped { OnOk result (held_in blocks.new.items ≡ finmap.insert (held_in blocks.old.items) key.now values.old) }
    ensures taken { OnOk result (values.new ≡ values_at (held_in blocks.old.items) key.now) }
    ensures own { AllOfType key.now.datatype values.new }
    ensures absent { OnErr result (finmap.get (held_in blocks.old.items) key.now ≡ None) }
    ensures kept { OnErr result (blocks.new.items ≡ blocks.old.items) }
    ensures stayed { OnErr result (values.new ≡ values.old) }
{
    blocks.reserve(1)?;
    let mut rows = Vec::new(alloc);
    rows::swap_row(alloc, &mut rows, key, values)?;
    blocks.push(Block { rows })?;
    Ok(())
}

/// Exchanges what is in the row of a key with `values`, in the block where it is or is made.
fn swap_in_block(
    alloc: Global,
    blocks: &mut Vec<Block>,
    key: &RowKey,
    values: &mut Items<Value>,
) -> Result<(), AllocError>
    requires sorted { RowsAreSorted (rows_in blocks.old.items) }
    requires types { AllOfType key.now.datatype values.old }
    ensures sorted { RowsAreSorted (rows_in blocks.new.items) }
    ensures swapped { OnOk result (held_in blocks.new.items ≡ finmap.insert (held_in blocks.old.items) key.now values.old) }
    ensures taken { OnOk result (values.new ≡ values_at (held_in blocks.old.items) key.now) }
    ensures own { AllOfType key.now.datatype values.new }
    ensures absent { OnErr result (finmap.get (held_in blocks.old.items) key.now ≡ None) }
    ensures kept { OnErr result (held_in blocks.new.items ≡ held_in blocks.old.items) }
    ensures stayed { OnErr result (values.new ≡ values.old) }
{
    if blocks.is_empty() {
        return begin(alloc, blocks, key, values);
    }
    let number = home(blocks, key);
    rows::swap_row(alloc, &mut blocks[number].rows, key, values)
}

/// Exchanges what is in the row of a key with `values`, and counts the rows.
///
/// Its contract is an equation but for memory.
pub fn swap_row(
    alloc: Global,
    blocks: &mut Vec<Block>,
    count: &mut usize,
    key: &RowKey,
    values: &mut Items<Value>,
) -> Result<(), AllocError>
    requires sorted { RowsAreSorted (rows_in blocks.old.items) }
    requires counted { count.old ≡ length (rows_in blocks.old.items) }
    requires few { count.old ≤ usize.MAX }
    requires types { AllOfType key.now.datatype values.old }
    ensures sorted { RowsAreSorted (rows_in blocks.new.items) }
    ensures counted { count.new ≡ length (rows_in blocks.new.items) }
    ensures few { count.new ≤ usize.MAX }
    ensures swapped { OnOk result (held_in blocks.new.items ≡ finmap.insert (held_in blocks.old.items) key.now values.old) }
    ensures taken { OnOk result (values.new ≡ values_at (held_in blocks.old.items) key.now) }
    ensures own { AllOfType key.now.datatype values.new }
    ensures absent { OnErr result (finmap.get (held_in blocks.old.items) key.now ≡ None) }
    ensures kept { OnErr result (held_in blocks.new.items ≡ held_in blocks.old.items) }
    ensures stayed { OnErr result (values.new ≡ values.old) }
{
    let after = count_with(blocks, *count, key)?;
    swap_in_block(alloc, blocks, key, values)?;
    *count = after;
    Ok(())
}

/// The row at an index.
///
/// Its contract is an equation.
pub fn row_at(blocks: &[Block], index: usize) -> Option<&Row>
    ensures { option_copied result ≡ slice_get (rows_in blocks.now) index }
{
    let mut left = index;
    for block in blocks {
        if let Some(row) = block.rows.get(left) {
            return Some(row);
        }
        left -= block.rows.len();
    }
    None
}

/// In which blocks the rows that a key names are: from that number on, up to this one.
fn bounds(blocks: &[Block], key: &AttrKey) -> (usize, usize)
    requires { RowsAreSorted (rows_in blocks.now) }
    ensures ordered { result.0 ≤ result.1 }
    ensures within { result.1 ≤ length blocks.now }
    ensures named { filter (λ r. names_row key.now r.key) (rows_in (slice_range blocks.now result.0 result.1))
        ≡ filter (λ r. names_row key.now r.key) (rows_in blocks.now) }
{
    let passed = blocks.partition_point(|block| first_to_named(block, key).is_lt());
    let begun = count_passing(
        &blocks[passed..],
        |block| first_to_named(block, key).is_le(),
    );
    (passed.saturating_sub(1), passed + begun)
}

/// The only row that a key names, if it is the one at a place in the block of that number, and stands between two
/// there that the key doesn't name.
fn only_row<'a>(blocks: &'a [Block], number: usize, place: usize, key: &AttrKey) -> Option<&'a Row>
    requires { RowsAreSorted (rows_in blocks.now) }
    ensures { IfSome result (λ r. filter (λ x. names_row key.now x.key) (rows_in blocks.now) ≡ r.now ∷ []) }
{
    let rows = &blocks.get(number)?.rows;
    let before = rows.get(place.checked_sub(1)?)?;
    let row = rows.get(place)?;
    let after = rows.get(place.checked_add(1)?)?;
    if key.names(&row.key) && !key.names(&before.key) && !key.names(&after.key) {
        Some(row)
    } else {
        None
    }
}

/// The number of the block where the rows that a key names begin, and their place there, as one number.
fn beginning(blocks: &[Block], key: &AttrKey) -> usize {
    let number = blocks
        .partition_point(|block| first_to_named(block, key).is_le())
        .saturating_sub(1);
    let place = match blocks.get(number) {
        None => 0,
        Some(block) => block
            .rows
            .partition_point(|row| rows::order(&row.key, key).is_lt()),
    };
    number.saturating_mul(PLACES).saturating_add(place)
}

/// The values of the rows that a key names, where one of these rows has them all.
///
/// Its contract leaves open: when it answers `None`, which it may always: its caller then makes a list.
pub fn sole<'a>(blocks: &'a [Block], hints: &Hints, key: &AttrKey) -> Option<&'a [Value]>
    requires { RowsAreSorted (rows_in blocks.now) }
    ensures value { IfSome result (λ v. v.now ≡ values_of key.now (filled (held_in blocks.now))) }
    ensures types { IfSome result (λ v. AllOfType key.now.datatype v.now) }
{
    let asked = mixed(mixed(0, key.entity.as_str()), key.attribute.as_str());
    let hint = hints.place(asked);
    if let Some(row) = only_row(blocks, hint / PLACES, hint % PLACES, key) {
        return Some(row.values.as_slice());
    }
    hints.keep(asked, beginning(blocks, key));
    named_in_one(blocks, key)
}

/// The same, found by a search.
fn named_in_one<'a>(blocks: &'a [Block], key: &AttrKey) -> Option<&'a [Value]>
    requires { RowsAreSorted (rows_in blocks.now) }
    ensures value { IfSome result (λ v. v.now ≡ values_of key.now (filled (held_in blocks.now))) }
    ensures types { IfSome result (λ v. AllOfType key.now.datatype v.now) }
{
    let (start, end) = bounds(blocks, key);
    let named = &blocks[start..end];
    let mut so_far: &'a [Value] = &[];
    for block in named {
        so_far = either(so_far, rows::named_in_one(&block.rows, key)?)?;
    }
    Some(so_far)
}

/// The values of the rows that a key names.
///
/// Its contract is an equation but for memory.
pub fn values_of(
    alloc: Global,
    blocks: &[Block],
    hints: &Hints,
    key: &AttrKey,
) -> Result<Bag, AllocError>
    requires { RowsAreSorted (rows_in blocks.now) }
    ensures value { IfOk result (λ b. b ≡ bag_found key.now (held_in blocks.now)) }
    ensures memory { OnErr result (values_of key.now (filled (held_in blocks.now)) ≢ []) }
{
    match sole(blocks, hints, key) {
        None => all_values_of(alloc, blocks, key),
        Some(values) => {
            let mut bag = Bag::new(alloc, key.datatype);
            rows::add_all(alloc, &mut bag, values)?;
            Ok(bag)
        }
    }
}

/// Those of several rows.
fn all_values_of(alloc: Global, blocks: &[Block], key: &AttrKey) -> Result<Bag, AllocError>
    requires { RowsAreSorted (rows_in blocks.now) }
    ensures value { IfOk result (λ b. b ≡ bag_found key.now (held_in blocks.now)) }
    ensures memory { OnErr result (values_of key.now (filled (held_in blocks.now)) ≢ []) }
{
    let (start, end) = bounds(blocks, key);
    let named = &blocks[start..end];
    let mut bag = Bag::new(alloc, key.datatype);
    for block in named {
        rows::add_named(alloc, &mut bag, &block.rows, key)?;
    }
    Ok(bag)
}
