//! The index, which no part of the program makes: which cells read a key, and the keys that a row or a document asks
//! about.

use ent_finder::{AttrKey, RowKey};
use ent_index::Index;
use ent_policy::{Kind, Name, Reference, VersionConstraints};
use ent_request::ReadKey;
use ent_values::{DataType, Text};
use std::alloc::{AllocError, Global};
use std::test::Fail;

/// The row of ann's names, with values that the issuer gives.
fn row(alloc: Global, issuer: Option<Text>) -> Result<RowKey, AllocError> {
    Ok(RowKey {
        category: Text::from_str(alloc, "subject")?,
        entity: Text::from_str(alloc, "ann")?,
        attribute: Text::from_str(alloc, "name")?,
        datatype: DataType::Text,
        issuer,
    })
}

/// The row of ann's names that bob gives.
fn row_by_bob(alloc: Global) -> Result<RowKey, AllocError> {
    let issuer = Text::from_str(alloc, "bob")?;
    row(alloc, Some(issuer))
}

/// The key of the values of that row.
fn key_of(row: RowKey) -> ReadKey {
    let RowKey {
        category,
        entity,
        attribute,
        datatype,
        issuer,
    } = row;
    ReadKey::Attr(AttrKey {
        category,
        entity,
        attribute,
        datatype,
        issuer,
    })
}

/// The key of a reference to any version of the policy set `q`; the root where that is no name.
fn set_key(alloc: Global) -> Result<ReadKey, AllocError> {
    let kind = Kind::PolicySet;
    let constraints = VersionConstraints::none();
    Ok(match Name::new(Text::from_str(alloc, "q")?) {
        Some(id) => ReadKey::Ref(Reference {
            kind,
            id,
            constraints,
        }),
        None => ReadKey::Root,
    })
}

/// How many keys a row asks about, and how many the policies and the policy sets of an id.
fn asked(index: &Index, row: &RowKey) -> Result<(usize, usize, usize), AllocError> {
    let rows = index.keys_of_row(row)?;
    let policies = index.keys_of_policy(Kind::Policy, "q")?;
    let sets = index.keys_of_policy(Kind::PolicySet, "q")?;
    Ok((rows.len(), policies.len(), sets.len()))
}

#[test]
fn cells_of_a_key_come_and_go(rt: HostRuntime) -> Result<(), Fail> {
    let alloc = rt.alloc();
    let mut index = Index::new(alloc);
    index.add(3, &[ReadKey::Root, ReadKey::CurrentDate])?;
    assert!(rt; index.cells_of(&ReadKey::CurrentDate) == [3].as_slice());
    assert!(rt; asked(&index, &row(alloc, None)?)? == (0, 0, 0));
    index.forget(3, &[ReadKey::CurrentDate]);
    assert!(rt; index.cells_of(&ReadKey::CurrentDate).is_empty());
    assert!(rt; index.cells_of(&ReadKey::Root) == [3].as_slice());
    index.add(5, &[ReadKey::Root])?;
    assert!(rt; index.cells_of(&ReadKey::Root) == [3, 5].as_slice());
    Ok(())
}

#[test]
fn a_row_and_documents_ask_about_their_own_keys(rt: HostRuntime) -> Result<(), Fail> {
    let alloc = rt.alloc();
    let mut index = Index::new(alloc);
    let row = row_by_bob(alloc)?;
    let keys = [key_of(row_by_bob(alloc)?), set_key(alloc)?];
    let is_whole = index.add(1, &keys).is_ok();
    assert!(rt; is_whole || asked(&index, &row)? == (0, 0, 0));
    index.add(1, &keys)?;
    assert!(rt; asked(&index, &row)? == (1, 0, 1));
    index.forget(1, &keys);
    assert!(rt; asked(&index, &row)? == (0, 0, 0));
    Ok(())
}
