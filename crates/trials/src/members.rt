//! The members of an object that is built as a value: a text that can't be put there leaves them.

use ent_json::put_text;
use serde_json::{Map, Value};
use std::test::Fail;

#[test]
fn a_refused_text_leaves_the_members(rt: HostRuntime) -> Result<(), Fail> {
    let alloc = rt.alloc();
    let mut members: Map<String, Value> = Map::new(alloc);
    put_text(alloc, &mut members, "a", "first")?;
    let is_put = put_text(alloc, &mut members, "b", "second").is_ok();
    assert!(rt; members.len() == if is_put { 2 } else { 1 });
    Ok(())
}
