//! What cells are sought by.

ghost use Rattle.std.specs.Prelude.{◌≡◌, IfOk, OnOk};
ghost use Rattle.std.specs.List.{list_any};
ghost use Rattle.ent_index.specs.Groups.{AreWanted, is_wanted};
ghost use Rattle.ent_index.specs.proofs_only.Groups.{AddsKey};

use crate::numbers::Numbers;
use ent_request::{Question, Questions, ReadKey, Readers};
use ent_values::Text;
use std::alloc::{AllocError, Global};

/// What cells are sought by: those whose group has the question of a number, and whose names are among the readers of
/// a key that names an entity.
#[derive(Clone, Copy)]
pub struct Wanted<'k> {
    pub number: u32,
    pub readers: Readers,
    pub key: &'k ReadKey,
}

impl<'k> Wanted<'k> {
    /// What the readers of some keys are sought by. A key whose question has no number has none.
    ///
    /// Its contract leaves open: how what is wanted is put together, as long as the same is wanted.
    pub fn of(
        alloc: Global,
        questions: &Questions,
        keys: &'k [ReadKey],
    ) -> Result<Vec<Wanted<'k>>, AllocError>
        ensures { IfOk result (λ v. AreWanted questions.now keys.now v.items) }
    {
        let mut wanted = Vec::new(alloc);
        for key in keys {
            push_wanted(alloc, questions, key, &mut wanted)?;
        }
        Ok(wanted)
    }

    /// Whether a listed request that asks the questions of some numbers reads it.
    pub(crate) fn is_read(
        &self,
        numbers: &Numbers,
        person: &Text,
        action: &Text,
        resource: &Text,
    ) -> bool
        ensures { result ≡ is_wanted person.now action.now resource.now numbers.now self.now }
    {
        self.readers
            .have(self.key.entity(), person, action, resource)
            && numbers.contains(self.number)
    }
}

/// Whether a listed request that asks the questions of some numbers reads one of those.
pub(crate) fn is_one_read(
    wanted: &[Wanted<'_>],
    numbers: &Numbers,
    person: &Text,
    action: &Text,
    resource: &Text,
) -> bool
    ensures { result ≡ list_any (is_wanted person.now action.now resource.now numbers.now) wanted.now }
{
    for one in wanted {
        if one.is_read(numbers, person, action, resource) {
            return true;
        }
    }
    false
}

// Puts last what the readers of a key are sought by, if its question has a number.
fn push_wanted<'k>(
    alloc: Global,
    questions: &Questions,
    key: &'k ReadKey,
    wanted: &mut Vec<Wanted<'k>>,
) -> Result<(), AllocError>
    ensures { OnOk result (AddsKey questions.now key.now wanted.old.items wanted.new.items) }
{
    let question = Question::of_key(alloc, key)?;
    let Some(number) = questions.number_of(&question) else {
        return Ok(());
    };
    let readers = Readers::of(key);
    wanted.push(Wanted {
        number,
        readers,
        key,
    })?;
    Ok(())
}
