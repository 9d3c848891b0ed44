//! What documents and lines are compared with: attributes that are declared, and names that are listed.

use crate::set_lines::lines_of;
use ent_values::Items;
use lint_declared::{DeclaredAttribute, Listed};
use std::alloc::{AllocError, Global};

/// What there is.
#[derive(Drop)]
pub(crate) struct Vocabulary {
    /// The attributes that are declared, and behind them the ids of which names are listed, with these as their values.
    attributes: Items<DeclaredAttribute>,
    /// How many are declared.
    declared: usize,
    /// The names that are listed.
    pub(crate) listed: Listed,
}

impl Vocabulary {
    /// What there is where these attributes are declared, and names are listed by the lines of a state and by others.
    pub(crate) fn new(
        alloc: Global,
        attributes: Items<DeclaredAttribute>,
        state: &[u8],
        lines: &[u8],
    ) -> Result<Vocabulary, AllocError> {
        let mut listed = Listed::new(alloc);
        listed.read(alloc, lines_of(alloc, state)?.as_slice())?;
        listed.read(alloc, lines_of(alloc, lines)?.as_slice())?;
        let declared = attributes.len();
        let mut attributes = attributes;
        listed.put_last(alloc, &mut attributes)?;
        Ok(Vocabulary {
            attributes,
            declared,
            listed,
        })
    }

    /// The attributes that are declared.
    pub(crate) fn declared(&self) -> &[DeclaredAttribute] {
        let all = self.attributes.as_slice();
        all.get(..self.declared).unwrap_or(all)
    }

    /// The attributes that are declared, and the ids of which names are listed.
    pub(crate) fn with_names(&self) -> &[DeclaredAttribute] {
        self.attributes.as_slice()
    }
}
