//! The lists of people, actions and resources.

ghost use Rattle.std.specs.Prelude.{◌≡◌, ◌*◌, ◌<◌, ◌≤◌, false, length, nat_eq, IfSome, OnErr, OnOk};
ghost use Rattle.std.specs.Cmp.Lexicographic.{pointwise};
ghost use Rattle.std.specs.List.{IsDistinct};
ghost use Rattle.ent_table.specs.Names.{has_name, list_of, no_names};
ghost use Rattle.ent_table.specs.proofs_only.Names.{CountsWith, IsPlace, TakesLast};
ghost use Rattle.ent_table.specs.Names.{texts, triple_of, with_list, with_name};
ghost use Rattle.ent_table.specs.proofs_only.Place.{IsAt, IsTaken, blocks_of, names_in};

use crate::edit::List;
use crate::name_list::NameList;
use ent_cells::Blocks;
use ent_values::Text;
use std::alloc::{AllocError, Global};
use std::marker::Model;

/// The names of three lists, which together make requests.
#[derive(Clone, Copy)]
pub(crate) struct Requests<'a> {
    pub(crate) people: &'a [Text],
    pub(crate) actions: &'a [Text],
    pub(crate) resources: &'a [Text],
}

/// The three lists.
#[derive(Drop)]
pub(crate) struct Lists {
    people: NameList,
    actions: NameList,
    resources: NameList,
}

impl Model for Lists {
    ghost use Rattle.ent_table.specs.Names.{Names};

    ghost Value = { Names };

    ghost view = { λ l. record { people = l.people; actions = l.actions; resources = l.resources } };
}

impl Lists {
    /// Three empty lists.
    pub(crate) fn new(alloc: Global) -> Lists
        ensures { result ≡ no_names }
    {
        Lists {
            people: NameList::new(alloc),
            actions: NameList::new(alloc),
            resources: NameList::new(alloc),
        }
    }

    /// The names of one list.
    pub(crate) fn names(&self, list: List) -> &[String]
        ensures names { texts result.now ≡ list_of list self.now }
        ensures few { length result.now ≤ 65536 }
    {
        match list {
            List::People => self.people.as_slice(),
            List::Actions => self.actions.as_slice(),
            List::Resources => self.resources.as_slice(),
        }
    }

    /// The names of one list as texts.
    pub(crate) fn shared(&self, list: List) -> &[Text]
        ensures { result.now ≡ list_of list self.now }
    {
        match list {
            List::People => self.people.shared(),
            List::Actions => self.actions.shared(),
            List::Resources => self.resources.shared(),
        }
    }

    /// The names of all lists.
    pub(crate) fn requests(&self) -> Requests<'_>
        ensures { names_in result ≡ self.now }
    {
        Requests {
            people: self.people.shared(),
            actions: self.actions.shared(),
            resources: self.resources.shared(),
        }
    }

    /// The names of all lists, with other names in place of one list.
    pub(crate) fn requests_with<'a>(&'a self, list: List, names: &'a [Text]) -> Requests<'a>
        ensures { names_in result ≡ with_list list names.now self.now }
    {
        let all = self.requests();
        match list {
            List::People => Requests {
                people: names,
                ..all
            },
            List::Actions => Requests {
                actions: names,
                ..all
            },
            List::Resources => Requests {
                resources: names,
                ..all
            },
        }
    }

    /// Whether a list has the name.
    pub(crate) fn has(&self, list: List, name: &str) -> bool
        ensures { result ≡ has_name name.now (list_of list self.now) }
    {
        match list {
            List::People => self.people.has(name),
            List::Actions => self.actions.has(name),
            List::Resources => self.resources.has(name),
        }
    }

    /// How many cells the lists would make with one name more in one of them.
    pub(crate) fn cell_count_with(&self, list: List) -> usize
        ensures { CountsWith list self.now result }
    {
        let people = self.people.as_slice().len();
        let actions = self.actions.as_slice().len();
        let resources = self.resources.as_slice().len();
        match list {
            List::People => (people + 1) * (actions * resources),
            List::Actions => people * ((actions + 1) * resources),
            List::Resources => people * (actions * (resources + 1)),
        }
    }

    /// Where the cells of one name of a list stand.
    pub(crate) fn blocks(&self, list: List) -> Blocks
        ensures blocks { result ≡ blocks_of list self.now }
        ensures few { result.each ≤ 4294967296 }
        ensures fit { result.count * result.each ≤ 4294967296 }
        ensures distinct { IsDistinct (pointwise nat_eq) (list_of list self.now) }
    {
        let people = self.people.as_slice().len();
        let actions = self.actions.as_slice().len();
        let resources = self.resources.as_slice().len();
        match list {
            List::People => Blocks {
                count: 1,
                width: people * (actions * resources),
                each: actions * resources,
            },
            List::Actions => Blocks {
                count: people,
                width: actions * resources,
                each: resources,
            },
            List::Resources => Blocks {
                count: people * actions,
                width: resources,
                each: 1,
            },
        }
    }

    /// Puts a name last that the list doesn't have. After a refusal the lists are as before.
    pub(crate) fn push(&mut self, alloc: Global, list: List, name: Text) -> Result<(), AllocError>
        requires room { length (list_of list self.old) < 65536 }
        requires absent { has_name name (list_of list self.old) ≡ false }
        ensures ok { OnOk result (self.new ≡ with_name list name self.old) }
        ensures err { OnErr result (self.new ≡ self.old) }
    {
        match list {
            List::People => self.people.push(alloc, name),
            List::Actions => self.actions.push(alloc, name),
            List::Resources => self.resources.push(alloc, name),
        }
    }

    /// Takes away the name that was put last.
    pub(crate) fn undo_push(&mut self, list: List)
        ensures { TakesLast list self.old self.new }
    {
        match list {
            List::People => self.people.undo_push(),
            List::Actions => self.actions.undo_push(),
            List::Resources => self.resources.undo_push(),
        }
    }

    /// Takes a name out of its list, and tells where it stood. Those behind it move up. It takes no memory.
    pub(crate) fn remove(&mut self, list: List, name: &str) -> Option<usize>
        ensures taken { IsTaken name.now (list_of list self.old) (list_of list self.new) result }
        ensures rest { self.new ≡ with_list list (list_of list self.new) self.old }
        ensures few { IfSome result (λ place. place < 65536) }
    {
        match list {
            List::People => self.people.remove(name),
            List::Actions => self.actions.remove(name),
            List::Resources => self.resources.remove(name),
        }
    }

    /// The place of a name in its list, if it is there.
    pub(crate) fn place_in(&self, list: List, name: &str) -> Option<usize>
        ensures at { IsAt name.now (list_of list self.now) result }
        ensures few { IfSome result (λ place. place < 65536) }
    {
        match list {
            List::People => self.people.place(name),
            List::Actions => self.actions.place(name),
            List::Resources => self.resources.place(name),
        }
    }

    /// The place of a request in list order, if it is listed.
    pub(crate) fn place(&self, person: &str, action: &str, resource: &str) -> Option<usize>
        ensures { IsPlace self.now (triple_of person.now action.now resource.now) result }
    {
        let row = self.people.place(person)?;
        let column = self.actions.place(action)?;
        let depth = self.resources.place(resource)?;
        let actions = self.actions.as_slice().len();
        let resources = self.resources.as_slice().len();
        Some((row * actions + column) * resources + depth)
    }
}
