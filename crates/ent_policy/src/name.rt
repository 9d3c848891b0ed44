//! Identifiers.

ghost use Rattle.std.specs.Prelude.{◌≡◌, false, IfOk, Some, codes, nat_eq, refl};
ghost use Rattle.std.specs.Cmp as Cmp;
ghost use Rattle.std.specs.Cmp.Lexicographic.{nat_list_cmp_total, nat_list_eq_equiv, pointwise, slice_cmp};
ghost use Rattle.std.specs.Cmp.Lexicographic.{texts_po, texts_ties};
ghost use Rattle.std.specs.Ordering.{nat_cmp};
ghost use Rattle.ent_policy.specs.Names.{is_bad_name, name_of};

use crate::limits::is_bad_name;
use ent_values::Text;
use std::alloc::{AllocError, Global};
use std::cmp::Ordering;
use std::marker::Model;

/// An identifier: a text of 1 to 256 bytes. Names order by their bytes.
#[derive(Drop)]
pub struct Name {
    text: Text,
}

impl Model for Name {
    ghost use Rattle.std.specs.Prelude.{◌≡◌, List, false, ℕ};
    ghost use Rattle.ent_policy.specs.Names.{is_bad_name};

    ghost Value = { List ℕ };

    ghost view = { λ n. n.text };

    ghost invariant = { λ n. is_bad_name n.text ≡ false };
}

impl Name {
    /// The name, unless the text is empty or has more than 256 bytes.
    ///
    /// Its contract is an equation.
    pub fn new(text: Text) -> Option<Name>
        ensures { result ≡ name_of text }
    {
        if is_bad_name(text.as_str()) {
            return None;
        }
        Some(Name { text })
    }

    /// The name `-`.
    pub(crate) fn dash(alloc: Global) -> Result<Name, AllocError>
        ensures { IfOk result (λ n. n ≡ codes "-") }
    {
        Ok(Name {
            text: Text::from_str(alloc, "-")?,
        })
    }

    /// The name as a `&str`, which has 1 to 256 bytes.
    ///
    /// Its contract is an equation.
    pub fn as_str(&self) -> &str
        ensures value { result.now ≡ self.now }
        ensures within { is_bad_name self.now ≡ false }
    {
        self.text.as_str()
    }

    /// An equal name.
    ///
    /// Its contract is an equation but for memory.
    pub fn copy(&self, alloc: Global) -> Result<Name, AllocError>
        ensures { IfOk result (λ n. n ≡ self.now) }
    {
        Ok(Name {
            text: self.text.copy(alloc)?,
        })
    }
}

impl PartialEq for Name {
    ghost eq = { pointwise nat_eq };

    ghost laws = { Cmp.partial_equiv_from_equiv nat_list_eq_equiv };

    fn eq(&self, other: &Self) -> bool {
        self.as_str() == other.as_str()
    }
}

impl Eq for Name {
    ghost laws = { nat_list_eq_equiv };
}

impl PartialOrd for Name {
    ghost partial_cmp = { λ x y. Some (slice_cmp nat_cmp x y) };

    ghost laws = { texts_po };

    fn partial_cmp(&self, other: &Self) -> Option<Ordering> {
        Some(self.cmp(other))
    }
}

impl Ord for Name {
    ghost cmp = { slice_cmp nat_cmp };

    ghost total = { nat_list_cmp_total };

    ghost matches_partial_cmp = { λ x y. refl };

    ghost matches_eq = { texts_ties };

    fn cmp(&self, other: &Self) -> Ordering {
        self.as_str().cmp(other.as_str())
    }
}
