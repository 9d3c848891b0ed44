//! The keys that look at a row, or at documents of a kind and an id.

ghost use Rattle.std.specs.Prelude.{◌≡◌, IfOk, T};
ghost use Rattle.std.specs.FinMap.{is_sorted};
ghost use Rattle.std.specs.List.{filter};
ghost use Rattle.std.specs.Map.{keys_of};
ghost use Rattle.ent_request.specs.Noted.{read_cmp};
ghost use Rattle.ent_index.specs.Asked.{asks_policy};
ghost use Rattle.ent_index.specs.proofs_only.Asked.{IsFirst, key_of_row, policy_order};

use crate::cells::SomeCells;
use ent_finder::{AttrKey, RowKey};
use ent_policy::{Kind, Name, Reference, VersionConstraints};
use ent_request::ReadKey;
use ent_values::{Items, Text};
use std::alloc::{AllocError, Global};
use std::cmp::Ordering;
use std::collections::btree_map::Range;

/// The key of values that the issuer gives of what a row is of, or without an issuer of those that anyone gives.
pub(crate) fn key_of_row(
    alloc: Global,
    row: &RowKey,
    issuer: Option<Text>,
) -> Result<ReadKey, AllocError>
    ensures { IfOk result (λ k. k ≡ key_of_row row.now issuer) }
{
    Ok(ReadKey::Attr(AttrKey {
        category: row.category.copy(alloc)?,
        entity: row.entity.copy(alloc)?,
        attribute: row.attribute.copy(alloc)?,
        datatype: row.datatype,
        issuer,
    }))
}

// How a key stands to the references of a kind and an id.
fn order(key: &ReadKey, kind: Kind, id: &str) -> Ordering
    ensures { result ≡ policy_order kind id.now key.now }
{
    match key {
        ReadKey::Root => Ordering::Less,
        ReadKey::Ref(reference) => {
            let ids = reference.id.as_str().cmp(id);
            reference.kind.cmp(&kind).then(ids)
        }
        ReadKey::Attr(_) | ReadKey::CurrentDate | ReadKey::CurrentTime | ReadKey::CurrentDateTime =>
            Ordering::Greater,
    }
}

/// A key that no reference of a kind and an id comes before: the first such reference, if the id is a name.
pub(crate) fn first_key(alloc: Global, kind: Kind, id: &str) -> Result<ReadKey, AllocError>
    ensures { IfOk result (IsFirst kind id.now) }
{
    match Name::new(Text::from_str(alloc, id)?) {
        Some(id) => Ok(ReadKey::Ref(Reference {
            kind,
            id,
            constraints: VersionConstraints::none(),
        })),
        None => Ok(ReadKey::Root),
    }
}

/// Of keys in their order those that are references of a kind and an id. Those behind them aren't looked at.
pub(crate) fn references(
    alloc: Global,
    range: Range<'_, ReadKey, SomeCells>,
    kind: Kind,
    id: &str,
) -> Result<Items<ReadKey>, AllocError>
    requires { T (is_sorted read_cmp range) }
    ensures { IfOk result (λ keys. keys ≡ filter (asks_policy kind id.now) (keys_of range.entry)) }
{
    let mut keys = Items::new(alloc);
    for (key, _) in range {
        match order(key, kind, id) {
            Ordering::Less => {}
            Ordering::Equal => keys.push(key.copy(alloc)?)?,
            Ordering::Greater => return Ok(keys),
        }
    }
    Ok(keys)
}
