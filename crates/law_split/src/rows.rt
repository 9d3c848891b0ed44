//! Reports that have rows of several people, merged by the order of people.

ghost use Rattle.std.specs.Prelude.{◌≡◌, ◌++◌, IfOk, OnOk, bytes_eq, filter};
ghost use Rattle.std.specs.List.{flat_map};
ghost use Rattle.law_split.specs.Merged.{AreByRuleOfTheWhole, AreWhoOfTheWhole, merged, merged_people, merged_requests};

use ent_values::{Items, Text};
use std::alloc::{AllocError, Global};

/// A row of a report, which is of one person.
trait ReportRow: Drop {
    ghost use Rattle.std.specs.Prelude.{List, ℕ};

    ghost person: { Self → List ℕ };

    /// The name of the person.
    fn person(&self) -> &str
        ensures { result.now ≡ person self.now };

    /// An equal row.
    fn copy(&self, alloc: Global) -> Result<Self, AllocError>
        ensures { IfOk result (λ row. row ≡ self.now) };
}

impl ReportRow for Text {
    ghost person = { λ row. row };

    fn person(&self) -> &str {
        self.as_str()
    }

    fn copy(&self, alloc: Global) -> Result<Text, AllocError> {
        Text::copy(self, alloc)
    }
}

impl ReportRow for (Text, Text, Text) {
    ghost person = { λ row. row.0 };

    fn person(&self) -> &str {
        self.0.as_str()
    }

    fn copy(&self, alloc: Global) -> Result<(Text, Text, Text), AllocError> {
        let (person, action, resource) = self;
        Ok((
            person.copy(alloc)?,
            action.copy(alloc)?,
            resource.copy(alloc)?,
        ))
    }
}

/// Puts the rows of a person in one list behind those that were found.
fn find<R: ReportRow>(
    alloc: Global,
    person: &str,
    rows: &[R],
    found: &mut Vec<R>,
) -> Result<(), AllocError>
    ensures { OnOk result (found.new.items ≡ found.old.items
        ++ filter (λ row. bytes_eq (R.person row) person.now) rows.now) }
{
    for row in rows {
        if row.person() == person {
            found.push(row.copy(alloc)?)?;
        }
    }
    Ok(())
}

/// Puts the rows of a person in several lists behind those that were found.
fn find_in_all<R: ReportRow>(
    alloc: Global,
    person: &str,
    lists: &[Items<R>],
    found: &mut Vec<R>,
) -> Result<(), AllocError>
    ensures { OnOk result (found.new.items ≡ found.old.items
        ++ filter (λ row. bytes_eq (R.person row) person.now) (flat_map (λ list. list) lists.now)) }
{
    for rows in lists {
        find(alloc, person, rows.as_slice(), found)?;
    }
    Ok(())
}

/// The rows of several lists in the order of people.
fn merge<R: ReportRow>(
    alloc: Global,
    order: &[Text],
    lists: &[Items<R>],
) -> Result<Items<R>, AllocError>
    ensures { IfOk result (λ rows. rows ≡ merged R.person order.now (flat_map (λ list. list) lists.now)) }
{
    let mut found = Vec::new(alloc);
    for person in order {
        find_in_all(alloc, person.as_str(), lists, &mut found)?;
    }
    Ok(Items::from_vec(found))
}

/// Who can do something in the whole, by who can in each part. The order is that of the whole's people: the one in
/// which they were added.
///
/// Its contract is an equation but for memory.
#[tactic(auto, using(crate::proofs::Merging::who_of_the_whole))]
pub fn merge_who(
    alloc: Global,
    order: &[Text],
    people: &[Items<Text>],
) -> Result<Items<Text>, AllocError>
    ensures merged { IfOk result (λ all. all ≡ merged_people order.now people.now) }
    ensures whole { IfOk result (AreWhoOfTheWhole order.now people.now) }
{
    merge(alloc, order, people)
}

/// The requests of the whole whose decision a rule gave, by those of each part, in the order of the whole's people.
///
/// Its contract is an equation but for memory.
#[tactic(auto, using(crate::proofs::Merging::by_rule_of_the_whole))]
pub fn merge_by_rule(
    alloc: Global,
    order: &[Text],
    requests: &[Items<(Text, Text, Text)>],
) -> Result<Items<(Text, Text, Text)>, AllocError>
    ensures merged { IfOk result (λ all. all ≡ merged_requests order.now requests.now) }
    ensures whole { IfOk result (AreByRuleOfTheWhole order.now requests.now) }
{
    merge(alloc, order, requests)
}
