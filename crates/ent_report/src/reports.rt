//! Reports of the cells of a table, in list order.

ghost use Rattle.std.specs.Prelude.{◌≡◌, IfOk, option_copied};
ghost use Rattle.ent_table.specs.Left.{cells_left};
ghost use Rattle.ent_table.specs.Parts.{column_left};
ghost use Rattle.ent_report.specs.proofs_only.Permitted.{permitted, permitted_people};
ghost use Rattle.ent_report.specs.Reports.{by_rule_in, is_permit};

use crate::rules::has_rule;
use ent_combine::Outcome;
use ent_eval::Evaluates;
use ent_table::{Cells, Column};
use ent_values::{Items, Text};
use std::alloc::{AllocError, Global};

fn is_permit(decision: Outcome) -> bool
    ensures { result ≡ is_permit decision }
{
    match decision {
        Outcome::Permit => true,
        _ => false,
    }
}

/// The actions and resources of the Permit cells among those of a person.
pub(crate) fn can_in<E: Evaluates>(
    alloc: Global,
    cells: Cells<'_, E>,
) -> Result<Items<(Text, Text)>, AllocError>
    ensures { IfOk result (λ found. found ≡ permitted (cells_left cells.entry)) }
{
    let mut found = Vec::new(alloc);
    for (_, action, resource, cell) in cells {
        if is_permit(cell.decision) {
            let action = Text::from_str(alloc, action)?;
            let resource = Text::from_str(alloc, resource)?;
            found.push((action, resource))?;
        }
    }
    Ok(Items::from_vec(found))
}

/// The people whose answer is a Permit, among the answers to an action and a resource.
pub(crate) fn who_in<E: Evaluates>(
    alloc: Global,
    answers: Column<'_, E>,
) -> Result<Items<Text>, AllocError>
    ensures { IfOk result (λ found. found ≡ permitted_people (column_left answers.entry)) }
{
    let mut found = Vec::new(alloc);
    for (person, answer) in answers {
        if is_permit(answer.decision) {
            found.push(Text::from_str(alloc, person)?)?;
        }
    }
    Ok(Items::from_vec(found))
}

/// The requests of the cells whose decision a rule gave.
pub(crate) fn by_rule_in<E: Evaluates>(
    alloc: Global,
    policy: &str,
    rule: Option<&str>,
    cells: Cells<'_, E>,
) -> Result<Items<(Text, Text, Text)>, AllocError>
    ensures { IfOk result (λ found. found ≡ by_rule_in policy.now (option_copied rule.entry) (cells_left cells.entry)) }
{
    let mut found = Vec::new(alloc);
    for (person, action, resource, answer) in cells {
        if has_rule(policy, rule, answer) {
            let person = Text::from_str(alloc, person)?;
            let action = Text::from_str(alloc, action)?;
            let resource = Text::from_str(alloc, resource)?;
            found.push((person, action, resource))?;
        }
    }
    Ok(Items::from_vec(found))
}
