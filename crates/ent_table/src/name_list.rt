//! A list of names without doubles.

ghost use Rattle.std.specs.Prelude.{◌≡◌, ◌<◌, ◌≤◌, ◌++◌, ◌∷◌, [], false, length, nat_eq, IfSome, OnErr, OnOk};
ghost use Rattle.std.specs.Cmp.Lexicographic.{pointwise};
ghost use Rattle.std.specs.List.{IsDistinct};
ghost use Rattle.ent_table.specs.Names.{has_name, texts};
ghost use Rattle.ent_table.specs.proofs_only.Names.{TakesLastName};
ghost use Rattle.ent_table.specs.proofs_only.Place.{IsAt, IsTaken};

use ent_values::Text;
use indexmap::IndexSet;
use std::alloc::{AllocError, Global};
use std::marker::Model;

/// Takes a name out of a list, and tells where it stood. Those behind it move up. It takes no memory.
fn take_out(names: &mut IndexSet<String>, name: &str) -> Option<usize>
    ensures taken { IsTaken name.now (texts names.old.keys) (texts names.new.keys) result }
    ensures few { length names.new.keys ≤ length names.old.keys }
    ensures within { IfSome result (λ place. place < length names.old.keys) }
{
    let (place, _) = names.shift_remove_full(name)?;
    Some(place)
}

/// The place of a name in a list, if it is there.
fn index_of(names: &IndexSet<String>, name: &str) -> Option<usize>
    ensures at { IsAt name.now (texts names.now.keys) result }
    ensures within { IfSome result (λ place. place < length names.now.keys) }
{
    names.get_index_of(name)
}

/// Names in order of insertion and without doubles, at most 65,536 of them. A name is found by a `&str`, without
/// memory. Each stands beside it as a text, which those who speak of the name may share.
#[derive(Drop)]
pub(crate) struct NameList {
    names: IndexSet<String>,
    shared: Vec<Text>,
}

impl Model for NameList {
    ghost use Rattle.std.specs.Prelude.{List, ℕ, ◌≡◌, ◌≤◌, length};
    ghost use Rattle.ent_table.specs.Names.{texts};

    ghost Value = { List (List ℕ) };

    ghost view = { λ l. texts l.names.keys };

    ghost invariant = { λ l. (texts l.names.keys ≡ l.shared.items) × (length l.names.keys ≤ 65536) };
}

impl NameList {
    /// No names.
    pub(crate) fn new(alloc: Global) -> NameList
        ensures { result ≡ [] }
    {
        NameList {
            names: IndexSet::new(alloc),
            shared: Vec::new(alloc),
        }
    }

    /// The names.
    pub(crate) fn as_slice(&self) -> &[String]
        ensures names { texts result.now ≡ self.now }
        ensures few { length result.now ≤ 65536 }
        ensures distinct { IsDistinct (pointwise nat_eq) self.now }
    {
        self.names.as_slice()
    }

    /// The names as texts.
    pub(crate) fn shared(&self) -> &[Text]
        ensures names { result.now ≡ self.now }
        ensures few { length result.now ≤ 65536 }
    {
        self.shared.as_slice()
    }

    /// Whether the list has the name.
    pub(crate) fn has(&self, name: &str) -> bool
        ensures { result ≡ has_name name.now self.now }
    {
        self.names.contains(name)
    }

    /// The place of a name, if it is there.
    pub(crate) fn place(&self, name: &str) -> Option<usize>
        ensures at { IsAt name.now self.now result }
        ensures few { IfSome result (λ place. place < 65536) }
    {
        index_of(&self.names, name)
    }

    /// Puts a name last that the list doesn't have. After a refusal the list is as before.
    pub(crate) fn push(&mut self, alloc: Global, name: Text) -> Result<(), AllocError>
        requires room { length self.old < 65536 }
        requires absent { has_name name self.old ≡ false }
        ensures ok { OnOk result (self.new ≡ self.old ++ name ∷ []) }
        ensures err { OnErr result (self.new ≡ self.old) }
    {
        let key = String::from_str(alloc, name.as_str())?;
        self.shared.reserve(1)?;
        self.names.insert(key)?;
        self.shared.push(name)?;
        Ok(())
    }

    /// Takes away the name that was put last.
    pub(crate) fn undo_push(&mut self)
        ensures { TakesLastName self.old self.new }
    {
        self.names.pop();
        self.shared.pop();
    }

    /// Takes a name out, and tells where it stood. Those behind it move up. It takes no memory.
    pub(crate) fn remove(&mut self, name: &str) -> Option<usize>
        ensures taken { IsTaken name.now self.old self.new result }
        ensures few { IfSome result (λ place. place < 65536) }
    {
        let place = take_out(&mut self.names, name)?;
        self.shared.remove(place);
        Some(place)
    }
}
