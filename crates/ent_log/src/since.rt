//! The changes since a serial.

ghost use Rattle.std.specs.Prelude.{◌≡◌, ◌≤◌, None, IfOk, OnOk, option_copied};
ghost use Rattle.std.specs.BTreeMap.{IsOrdered, get};
ghost use Rattle.ent_log.specs.Difference.{IsDifference, Respects, changes_among, same_optional};
ghost use Rattle.ent_log.specs.Entries.{answers_of, entries_since, first_answer_or};
ghost use Rattle.ent_log.specs.Tables.{table_at};

use crate::change::LoggedChange;
use crate::key::SharedKey;
use crate::log::Log;
use crate::present::Present;
use ent_values::{Items, Shared};
use std::alloc::{AllocError, Global};
use std::collections::BTreeMap;

// One more owner of an answer, if there is one.
fn copy_of<A: Drop>(answer: Option<&Shared<A>>) -> Result<Option<Shared<A>>, AllocError>
    ensures { IfOk result (λ copy. copy ≡ option_copied answer.entry) }
{
    match answer {
        Some(answer) => Ok(Some(answer.copy()?)),
        None => Ok(None),
    }
}

// Whether two answers are the same, or both none.
fn is_same<A: PartialEq>(before: Option<&Shared<A>>, after: Option<&Shared<A>>) -> bool
    ensures { result ≡ same_optional A.eq (option_copied before.entry) (option_copied after.entry) }
{
    match (before, after) {
        (None, None) => true,
        (Some(before), Some(after)) => *before == *after,
        _ => false,
    }
}

// The changes of keys with old answers, in order, where the present answers are others.
fn changes_of<K: Ord + Drop, A: PartialEq + Drop, P: Present<K, A>>(
    alloc: Global,
    present: &P,
    old_answers: BTreeMap<SharedKey<K>, Option<Shared<A>>>,
) -> Result<Items<LoggedChange<K, A>>, AllocError>
    requires { P.can_answer present.now }
    ensures changes { IfOk result (λ cs. cs ≡ changes_among A.eq (P.answers present.now) old_answers.entries) }
    ensures ordered { OnOk result (IsOrdered K.cmp old_answers) }
{
    let mut changes = Vec::new(alloc);
    for (key, before) in old_answers {
        let after = present.answer(key.get());
        if !is_same(before.as_ref(), after) {
            let after = copy_of(after)?;
            changes.push(LoggedChange {
                key: key.into_shared(),
                before,
                after,
            })?;
        }
    }
    Ok(Items::from_vec(changes))
}

impl<K: Ord + Drop, A: Drop> Log<K, A> {
    // The answers that edits from a serial on changed, as they were before the first of them.
    fn old_answers(
        &self,
        alloc: Global,
        serial: u64,
    ) -> Result<BTreeMap<SharedKey<K>, Option<Shared<A>>>, AllocError>
        ensures { IfOk result (λ m. (k : K) →
            get K.cmp m k ≡ first_answer_or K.cmp (answers_of (entries_since serial self.now.entries.items)) k None
            ) }
    {
        let mut old_answers = BTreeMap::new(alloc);
        let mut place = self.entries.len();
        while place > 0 {
            let entry = &self.entries[place - 1];
            if entry.serial < serial {
                break;
            }
            // Of several old answers to one key the earliest is put in last, and stays.
            let answer = copy_of(entry.old.answer.as_ref())?;
            old_answers.insert(SharedKey::new(entry.old.key.copy()?), answer)?;
            place -= 1;
        }
        Ok(old_answers)
    }
}

impl<K: Ord + Drop, A: Eq + Drop> Log<K, A> {
    /// The difference of the table at a serial and the present one: each key to which they give different answers once,
    /// in order, with both answers. It takes time in proportion to what was logged from that serial on, times a
    /// logarithm.
    ///
    /// Its contract leaves open: nothing that differs: the list is said as the difference of two tables, in order, each
    /// key once.
    pub fn changes_since<P: Present<K, A>>(
        &self,
        alloc: Global,
        present: &P,
        serial: u64,
    ) -> Result<Items<LoggedChange<K, A>>, AllocError>
        requires kept { self.now.from ≤ serial }
        requires reached { serial ≤ self.now.serial }
        requires ready { P.can_answer present.now }
        requires respects { Respects K.cmp (P.answers present.now) }
        ensures { IfOk result (IsDifference K.cmp A.eq
            (table_at K.cmp self.now (P.answers present.now) serial)
            (P.answers present.now)
            ) }
    {
        let old_answers = self.old_answers(alloc, serial)?;
        changes_of(alloc, present, old_answers)
    }
}
