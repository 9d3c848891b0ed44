//! Cells in groups by the questions that their answers rest on, and by name.

ghost use Rattle.std.specs.Prelude.{◌≡◌, IfOk, IfSome, OnErr, OnOk, option_copied, true};
ghost use Rattle.std.specs.List.{list_any};
ghost use Rattle.std.specs.List.Sorted.{IsStrictlySortedBy};
ghost use Rattle.std.specs.Ordering.{nat_cmp};
ghost use Rattle.ent_request.specs.declared.readers.Readers.TheVariants.{Named};
ghost use Rattle.ent_index.specs.Groups.{Covers, HasLeft, HasNoCells, HasSameNames};
ghost use Rattle.ent_index.specs.Groups.{IsNamed, IsUnnamed, KeepsGroups, KeepsGroupsBut, KeepsNamesBut};
ghost use Rattle.ent_index.specs.Groups.{holds, is_among, is_wanted, numbers_of};
ghost use Rattle.ent_index.specs.proofs_only.Grouped.{IsGroupOf, roll_under};
ghost use Rattle.ent_index.specs.proofs_only.Groups.{CoversOne, HasAll, HasAllOf, HasAsking, HasMore, names_at};

use crate::group::{Group, is_group_of, make_group, mixed, put_cell, take_cell};
use crate::names::NameCells;
use crate::roll::Roll;
use crate::wanted::{Wanted, is_one_read};
use ent_request::{NamePlace, ReadKey, Readers};
use ent_values::Text;
use slab::Slab;
use std::alloc::{AllocError, Global};
use std::collections::BTreeMap;

/// Cells in groups: those of a group have answers that rest on the same questions. Each cell stands under its three
/// names besides. So those that read a key are found by what it asks and by whom it names.
#[derive(Drop)]
pub struct Groups {
    alloc: Global,
    groups: Slab<Group>,
    found: BTreeMap<u64, u32>,
    persons: NameCells,
    actions: NameCells,
    resources: NameCells,
}

impl Groups {
    /// No cells, for which nothing is allocated.
    ///
    /// Its contract leaves open: which value stands for no cells.
    pub fn new(alloc: Global) -> Groups
        ensures { HasNoCells result }
    {
        Groups {
            alloc,
            groups: Slab::new(alloc),
            found: BTreeMap::new(alloc),
            persons: NameCells::new(alloc),
            actions: NameCells::new(alloc),
            resources: NameCells::new(alloc),
        }
    }

    /// The numbers of a group's questions: none where there is no such group.
    ///
    /// Its contract is an equation.
    pub fn numbers(&self, group: u32) -> &[u32]
        ensures { result.now ≡ numbers_of self.now group }
    {
        match self.groups.get(group as usize) {
            Some(group) => group.numbers.as_slice(),
            None => &[],
        }
    }

    /// Puts a cell under its names. After a refusal it stands under none of them.
    ///
    /// Its contract leaves open: where another cell stands that had the same place; of other cells, that they stay
    /// under their names.
    pub fn enter(
        &mut self,
        cell: usize,
        person: &Text,
        action: &Text,
        resource: &Text,
    ) -> Result<(), AllocError>
        ensures named { OnOk result (IsNamed self.new person.now action.now resource.now cell) }
        ensures refused { OnErr result (IsUnnamed self.new person.now action.now resource.now cell) }
        ensures names { KeepsNamesBut cell self.old self.new }
        ensures groups { self.new.groups ≡ self.old.groups }
    {
        let Ok(number) = u32::try_from(cell) else {
            return Err(AllocError);
        };
        if let Err(error) = self.put_all(number, person, action, resource) {
            self.exit(cell, person, action, resource);
            return Err(error);
        }
        Ok(())
    }

    // Puts a cell under its names. After a refusal it may stand under some.
    fn put_all(
        &mut self,
        cell: u32,
        person: &Text,
        action: &Text,
        resource: &Text,
    ) -> Result<(), AllocError>
        ensures named { OnOk result (IsNamed self.new person.now action.now resource.now cell) }
        ensures names { KeepsNamesBut cell self.old self.new }
        ensures groups { self.new.groups ≡ self.old.groups }
    {
        self.persons.put(self.alloc, person, cell)?;
        self.actions.put(self.alloc, action, cell)?;
        self.resources.put(self.alloc, resource, cell)?;
        Ok(())
    }

    /// Takes a cell out under its names. It takes no memory.
    ///
    /// Its contract leaves open: how empty names are tidied; other cells stay under their names.
    pub fn exit(&mut self, cell: usize, person: &Text, action: &Text, resource: &Text)
        ensures gone { IsUnnamed self.new person.now action.now resource.now cell }
        ensures names { KeepsNamesBut cell self.old self.new }
        ensures groups { self.new.groups ≡ self.old.groups }
    {
        let Ok(cell) = u32::try_from(cell) else {
            return;
        };
        self.persons.take(person, cell);
        self.actions.take(action, cell);
        self.resources.take(resource, cell);
    }

    /// Puts a cell into the group of some questions, which is made if there is none, and tells its number. It is likely
    /// the one beside it. The numbers are copied where a group is made. After a refusal the cell has joined none.
    ///
    /// Its contract leaves open: which number the group gets, and how groups are kept that have no cells.
    pub fn join(&mut self, cell: usize, numbers: &[u32], beside: u32) -> Result<u32, AllocError>
        ensures there { IfOk result (λ g. holds self.new g cell ≡ true) }
        ensures numbers { IfOk result (λ g. numbers_of self.new g ≡ numbers.now) }
        ensures groups { KeepsGroups self.old self.new }
        ensures names { HasSameNames self.old self.new }
    {
        let Ok(cell) = u32::try_from(cell) else {
            return Err(AllocError);
        };
        let mixed = mixed(numbers);
        match self.group_of(numbers, mixed, beside) {
            Some(group) => {
                put_cell(&mut self.groups, group, cell)?;
                Ok(group)
            }
            None => self.make(cell, numbers, mixed),
        }
    }

    // The group of some questions, if there is one and it is found: likely the one beside it, or the one that is kept
    // for what is made of them.
    fn group_of(&self, numbers: &[u32], mixed: u64, beside: u32) -> Option<u32>
        ensures { IfSome result (λ g. IsGroupOf self.now.groups g numbers.now) }
    {
        if is_group_of(&self.groups, beside, numbers) {
            return Some(beside);
        }
        let found = *self.found.get(&mixed)?;
        if is_group_of(&self.groups, found, numbers) {
            Some(found)
        } else {
            None
        }
    }

    // Makes the group of some questions, with one cell, and tells its number. After a refusal there is none.
    fn make(&mut self, cell: u32, numbers: &[u32], mixed: u64) -> Result<u32, AllocError>
        ensures there { IfOk result (λ g. holds self.new g cell ≡ true) }
        ensures numbers { IfOk result (λ g. numbers_of self.new g ≡ numbers.now) }
        ensures groups { KeepsGroups self.old self.new }
        ensures names { HasSameNames self.old self.new }
    {
        let likely = u32::try_from(self.groups.vacant_key()).unwrap_or(0);
        self.found.insert(mixed, likely)?;
        let group = make_group(self.alloc, &mut self.groups, numbers, cell)?;
        Ok(group)
    }

    /// Takes a cell out of a group. It takes no memory.
    ///
    /// Its contract leaves open: how groups are kept that have no cells, and all of cells from 2^32 on, which there are
    /// none of.
    pub fn leave(&mut self, cell: usize, group: u32)
        ensures gone { HasLeft self.new group cell }
        ensures groups { KeepsGroupsBut group cell self.old self.new }
        ensures names { HasSameNames self.old self.new }
    {
        let Ok(cell) = u32::try_from(cell) else {
            return;
        };
        if let Some(left) = take_cell(&mut self.groups, group, cell) {
            forget(&mut self.found, left.numbers.as_slice(), group);
        }
    }

    /// Whether the cell of a request that stands in a group reads what is wanted.
    ///
    /// Its contract is an equation.
    pub fn reads(
        &self,
        group: u32,
        person: &Text,
        action: &Text,
        resource: &Text,
        wanted: &[Wanted<'_>],
    ) -> bool
        ensures { result
            ≡ list_any (is_wanted person.now action.now resource.now (numbers_of self.now group)) wanted.now }
    {
        match self.groups.get(group as usize) {
            Some(group) => is_one_read(wanted, &group.numbers, person, action, resource),
            None => false,
        }
    }

    /// Cells among which each is that reads what is wanted, each once, in rising order.
    ///
    /// Its contract leaves open: which other cells are among them: a list of all would do.
    pub fn candidates(&self, wanted: &[Wanted<'_>]) -> Result<Vec<usize>, AllocError>
        ensures covers { IfOk result (λ v. Covers self.now wanted.now v.items) }
        ensures ordered { IfOk result (λ v. IsStrictlySortedBy nat_cmp v.items) }
    {
        let mut cells = Roll::new(self.alloc);
        for one in wanted {
            self.add_readers(one, &mut cells)?;
        }
        cells.to_vec(self.alloc)
    }

    // Puts cells into a roll among which each is that reads what is wanted.
    fn add_readers(&self, one: &Wanted<'_>, cells: &mut Roll) -> Result<(), AllocError>
        ensures covers { OnOk result (CoversOne self.now one.now cells.new) }
        ensures more { OnOk result (HasMore cells.old cells.new) }
    {
        match one.readers {
            Readers::Nobody => Ok(()),
            Readers::Every => {
                self.add_asking(one.number, cells)?;
                Ok(())
            }
            Readers::Named(place) => {
                self.add_named(place, one, cells)?;
                Ok(())
            }
        }
    }

    // Puts cells into such a roll, where they are those of a name at a place.
    fn add_named(
        &self,
        place: NamePlace,
        one: &Wanted<'_>,
        cells: &mut Roll,
    ) -> Result<(), AllocError>
        requires { one.now.readers ≡ Named place }
        ensures covers { OnOk result (CoversOne self.now one.now cells.new) }
        ensures more { OnOk result (HasMore cells.old cells.new) }
    {
        match one.key {
            ReadKey::Attr(key) => {
                let named = self.named(place, &key.entity);
                if self.are_fewer_asking(one.number, named) {
                    self.add_asking(one.number, cells)?;
                    return Ok(());
                }
                add_roll(named, cells)?;
                Ok(())
            }
            _ => {
                self.add_asking(one.number, cells)?;
                Ok(())
            }
        }
    }

    // Whether fewer cells are in the groups that have the question of a number than under a name. To tell it takes no
    // longer than to go over these: so where there are more groups, it isn't tried.
    fn are_fewer_asking(&self, number: u32, named: Option<&Roll>) -> bool {
        let Some(named) = named else {
            return false;
        };
        if self.groups.len() >= named.len() {
            return false;
        }
        let mut asking: usize = 0;
        for (_, group) in self.groups.iter() {
            if group.numbers.contains(number) {
                asking = asking.saturating_add(group.cells.len());
            }
        }
        asking < named.len()
    }

    // The cells of a name at a place, if there are any.
    fn named(&self, place: NamePlace, name: &Text) -> Option<&Roll>
        ensures { option_copied result ≡ roll_under (names_at place self.now) name.now }
    {
        match place {
            NamePlace::Person => self.persons.get(name),
            NamePlace::Action => self.actions.get(name),
            NamePlace::Resource => self.resources.get(name),
        }
    }

    // Puts the cells into a roll whose groups have the question of a number.
    fn add_asking(&self, number: u32, cells: &mut Roll) -> Result<(), AllocError>
        ensures asking { OnOk result (HasAsking self.now number cells.new) }
        ensures more { OnOk result (HasMore cells.old cells.new) }
    {
        for (_, group) in self.groups.iter() {
            add_group(group, number, cells)?;
        }
        Ok(())
    }
}

// Forgets that a group is the one of some questions.
fn forget(found: &mut BTreeMap<u64, u32>, numbers: &[u32], group: u32) {
    let mixed = mixed(numbers);
    let is_its = match found.get(&mixed) {
        Some(there) => *there == group,
        None => false,
    };
    if is_its {
        found.remove(&mixed);
    }
}

// Puts the cells of a group into a roll, if it has the question of a number.
fn add_group(group: &Group, number: u32, cells: &mut Roll) -> Result<(), AllocError>
    ensures cells { OnOk result (is_among group.now.numbers number ≡ true → HasAll group.now.cells cells.new) }
    ensures more { OnOk result (HasMore cells.old cells.new) }
{
    if !group.numbers.contains(number) {
        return Ok(());
    }
    group.cells.add_to(cells)?;
    Ok(())
}

// Puts cells into a roll, if there are any.
fn add_roll(more: Option<&Roll>, cells: &mut Roll) -> Result<(), AllocError>
    ensures all { OnOk result (HasAllOf (option_copied more.entry) cells.new) }
    ensures more { OnOk result (HasMore cells.old cells.new) }
{
    match more {
        Some(more) => {
            more.add_to(cells)?;
            Ok(())
        }
        None => Ok(()),
    }
}
