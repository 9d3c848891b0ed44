//! A module of rows, of which the program asks for the three categories alone.

use ent_finder::{AttributeFinderModule, MapRows};
use ent_values::{Items, Text};
use std::test::Fail;

#[test]
fn a_module_has_rows_of_its_categories_alone(rt: HostRuntime) -> Result<(), Fail> {
    let alloc = rt.alloc();
    let mut categories = Items::new(alloc);
    categories.push(Text::from_str(alloc, "subject")?)?;
    let rows = MapRows::new(alloc, categories);
    assert!(rt; rows.supports("subject"));
    assert!(rt; !rows.supports("sub"));
    Ok(())
}
