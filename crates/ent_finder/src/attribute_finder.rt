//! The finder of attributes over boxed modules.

ghost use Rattle.std.specs.Prelude.{◌≡◌, ◌<◌, ◌≤◌, length, map, vec_len};
ghost use Rattle.ent_finder.specs.Rows.{Source, source_at};

use crate::attribute_module::AttributeFinderModule;
use crate::attributes::Attributes;
use crate::boxed_attributes::{find_in, row_in, sole_in, supports_in, swap_in};
use crate::row::{AttrKey, Row, RowKey};
use ent_values::{Bag, Items, Value};
use std::alloc::AllocError;

/// Asks its modules in their order.
#[derive(Drop)]
pub struct AttributeFinder {
    modules: Vec<Box<dyn AttributeFinderModule>>,
}

impl AttributeFinder {
    /// The finder over 1 to 4 modules.
    ///
    /// Its contract is an equation.
    pub fn new(modules: Vec<Box<dyn AttributeFinderModule>>) -> AttributeFinder
        requires some { 1 ≤ vec_len modules }
        requires few { vec_len modules ≤ 4 }
        ensures { ⟦<AttributeFinder as Attributes>⟧.sources result ≡ map {B = Source} (λ b. source b) modules.items }
    {
        AttributeFinder { modules }
    }

    /// The module of that number.
    fn module(&self, number: usize) -> &dyn AttributeFinderModule
        requires { number < length (⟦<AttributeFinder as Attributes>⟧.sources self.now) }
        ensures { source result.now ≡ source_at (⟦<AttributeFinder as Attributes>⟧.sources self.now) number }
    {
        self.modules[number].as_ref()
    }
}

impl Attributes for AttributeFinder {
    ghost sources = { λ f. map (λ b. (AttributeFinderModule-box b).source b.value) f.modules.items };

    fn len(&self) -> usize {
        self.modules.len()
    }

    fn supports(&self, number: usize, category: &str) -> bool {
        supports_in(self.module(number), category)
    }

    fn look(&self, key: &AttrKey, bag: &mut Bag) -> Result<(), AllocError> {
        for store in &self.modules {
            if supports_in(store.as_ref(), key.category.as_str()) {
                find_in(store.as_ref(), key, bag)?;
                if !bag.is_empty() {
                    return Ok(());
                }
            }
        }
        Ok(())
    }

    fn sole(&self, key: &AttrKey) -> Option<&[Value]> {
        for store in &self.modules {
            if supports_in(store.as_ref(), key.category.as_str()) {
                let values = sole_in(store.as_ref(), key)?;
                if !values.is_empty() {
                    return Some(values);
                }
            }
        }
        Some(&[])
    }

    fn swap_row(
        &mut self,
        number: usize,
        key: &RowKey,
        values: &mut Items<Value>,
    ) -> Result<(), AllocError> {
        swap_in(&mut self.modules[number], key, values)?;
        Ok(())
    }

    fn row_at(&self, number: usize, index: usize) -> Option<&Row> {
        row_in(self.module(number), index)
    }
}
