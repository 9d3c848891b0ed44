//! Reports that are put together of those of several reviews, which no part of the program makes.

use ent_report::Counts;
use ent_values::{Items, Text};
use law_split::{merge_by_rule, merge_who, sum_changes, sum_counts};
use std::alloc::{AllocError, Global};
use std::test::Fail;

/// The people of the whole, in their order.
const WHOLE: &[&str] = &["zoe", "ann", "bob"];

/// Those that each part tells of.
const PARTS: &[&[&str]] = &[&["ann"], &["zoe", "bob"]];

/// The names of people.
fn names(alloc: Global, people: &[&str]) -> Result<Items<Text>, AllocError> {
    let mut all = Items::new(alloc);
    for person in people {
        all.push(Text::from_str(alloc, person)?)?;
    }
    Ok(all)
}

/// A request of a person, for an action and a resource of the same name.
fn request(alloc: Global, person: &str) -> Result<(Text, Text, Text), AllocError> {
    let action = Text::from_str(alloc, person)?;
    let resource = Text::from_str(alloc, person)?;
    Ok((Text::from_str(alloc, person)?, action, resource))
}

/// A request of each of some people.
fn requests(alloc: Global, people: &[&str]) -> Result<Items<(Text, Text, Text)>, AllocError> {
    let mut all = Items::new(alloc);
    for person in people {
        all.push(request(alloc, person)?)?;
    }
    Ok(all)
}

/// The people of the whole, of those of the parts.
fn merged_people(alloc: Global, order: &[Text]) -> Result<Items<Text>, AllocError> {
    let mut parts = Vec::new(alloc);
    for people in PARTS {
        parts.push(names(alloc, people)?)?;
    }
    merge_who(alloc, order, parts.as_slice())
}

/// The requests of the whole, of those of the parts.
fn merged_requests(alloc: Global, order: &[Text]) -> Result<Items<(Text, Text, Text)>, AllocError> {
    let mut parts = Vec::new(alloc);
    for people in PARTS {
        parts.push(requests(alloc, people)?)?;
    }
    merge_by_rule(alloc, order, parts.as_slice())
}

/// So many cells of each decision.
fn counts(deny: u64, indeterminate: u64, not_applicable: u64, permit: u64) -> Counts {
    Counts {
        deny,
        indeterminate,
        not_applicable,
        permit,
    }
}

#[test]
fn rows_of_parts_are_put_together(rt: HostRuntime) -> Result<(), Fail> {
    let alloc = rt.alloc();
    let order = names(alloc, WHOLE)?;
    let people = merged_people(alloc, order.as_slice())?;
    assert!(rt; people == order);
    let rows = merged_requests(alloc, order.as_slice())?;
    assert!(rt; rows == requests(alloc, WHOLE)?);
    Ok(())
}

#[test]
fn counts_of_parts_are_added(rt: HostRuntime) {
    let parts = &[counts(1, 0, 2, 4), counts(3, 1, 0, 2)];
    assert!(rt; sum_counts(parts) == Some(counts(4, 1, 2, 6)));
    assert!(rt; sum_changes(&[2, 3, 1]) == Some(6));
}
