//! The lines and the columns of several places in a text.

use crate::position::{Position, inside, position_of};
use std::alloc::{AllocError, Global};

/// Places in a JSON text. One whose JSON pointer begins as that of the place before is followed from where that led.
#[derive(Drop)]
pub struct Places<'t> {
    alloc: Global,
    text: &'t [u8],
    /// The text from where each of the steps led.
    led: Vec<&'t [u8]>,
    /// The steps of the pointer before, as far as they led.
    steps: Vec<String>,
}

impl<'t> Places<'t> {
    /// The places in a text.
    ///
    /// Its contract leaves open: all of it.
    pub fn of(alloc: Global, text: &'t [u8]) -> Places<'t> {
        Places {
            alloc,
            text,
            led: Vec::new(alloc),
            steps: Vec::new(alloc),
        }
    }

    /// How many steps of a pointer are those of the one before.
    fn common(&self, pointer: &str) -> usize {
        let mut count = 0usize;
        for (ours, theirs) in self.steps.iter().zip(pointer.split('/').skip(1)) {
            if ours.as_str() != theirs {
                return count;
            }
            count = count.saturating_add(1);
        }
        count
    }

    /// Follows a step from there, if it leads anywhere.
    fn follow(&mut self, there: &'t [u8], step: &str) -> Result<Option<&'t [u8]>, AllocError> {
        let Some(inner) = inside(self.alloc, there, step)? else {
            return Ok(None);
        };
        self.led.push(inner)?;
        self.steps.push(String::from_str(self.alloc, step)?)?;
        Ok(Some(inner))
    }

    /// The line and the column at which the value begins that stands at a JSON pointer, as by
    /// [`line_and_column`](crate::line_and_column).
    ///
    /// # Errors
    ///
    /// `AllocError` if memory runs out.
    ///
    /// Its contract leaves open: all of it: which line and column a place has is shown by the stored run `lint_told`.
    pub fn line_and_column(&mut self, pointer: &str) -> Result<Position, AllocError> {
        let common = self.common(pointer);
        self.steps.truncate(common);
        self.led.truncate(common);
        let mut here = match self.led.last() {
            Some(there) => *there,
            None => self.text.trim_ascii_start(),
        };
        for step in pointer.split('/').skip(common.saturating_add(1)) {
            match self.follow(here, step)? {
                Some(inner) => here = inner,
                None => return Ok(position_of(self.text, here)),
            }
        }
        Ok(position_of(self.text, here))
    }
}
