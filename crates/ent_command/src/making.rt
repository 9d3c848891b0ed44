//! The edit that a change makes.

ghost use Rattle.std.specs.Prelude.{◌≡◌, option_copied};
ghost use Rattle.ent_command.specs.Asked as asked;
ghost use Rattle.ent_command.specs.Edits.{edit_of, module_number, row_fault};
ghost use Rattle.ent_command.specs.CommandView.{change_view, row_view};
ghost use Rattle.ent_command.specs.Making.{Makes};

use crate::command::EditCommand;
use crate::keys::AskedRow;
use crate::reading::{read_day, read_moment, read_root, read_row};
use ent_json::JsonTree;
use ent_polform::read_document;
use ent_policy::{CheckFault, DocFault, DocKey, Kind, Version};
use ent_table::{Edit, EditFault, List, MOST_VALUES, is_reserved};
use ent_values::Text;
use std::alloc::{AllocError, Global};

/// Why a change makes no edit.
#[derive(Drop)]
pub enum NoEdit {
    /// Its document or its reference has that fault, the first one.
    Faulty(DocFault),
    /// Something else in it can't be read, which has that refusal where there may be one edit more.
    Unreadable(EditFault),
    /// Memory is wanting.
    Memory,
}

impl From<AllocError> for NoEdit {
    ghost use Rattle.std.specs.Prelude.{◌≡◌};
    ghost use Rattle.ent_command.specs.declared.making.NoEdit.TheVariants.{Memory};

    ghost from_gives = { λ _ e. e ≡ Memory };

    fn from(_: AllocError) -> NoEdit {
        NoEdit::Memory
    }
}

impl From<CheckFault> for NoEdit {
    ghost use Rattle.std.specs.Prelude.{◌≡◌};
    ghost use Rattle.ent_command.specs.Making.{unchecked};

    ghost from_gives = { λ fault e. e ≡ unchecked fault };

    fn from(fault: CheckFault) -> NoEdit {
        match fault {
            CheckFault::Doc(fault) => NoEdit::Faulty(fault),
            CheckFault::Memory => NoEdit::Memory,
        }
    }
}

/// A name put last in a list.
fn name_added(alloc: Global, list: List, name: &str) -> Result<Edit, NoEdit>
    ensures { Makes result (edit_of (asked.add_name list name.now)) }
{
    Ok(Edit::AddName(list, Text::from_str(alloc, name)?))
}

/// A name taken out of a list.
fn name_dropped(alloc: Global, list: List, name: &str) -> Result<Edit, NoEdit>
    ensures { Makes result (edit_of (asked.drop_name list name.now)) }
{
    Ok(Edit::DropName(list, Text::from_str(alloc, name)?))
}

/// The number of a module. None, of a negative number, has the greatest, which is no module's.
fn module_number(number: Option<u64>) -> usize
    ensures { result ≡ module_number number }
{
    number.unwrap_or(u64::MAX) as usize
}

/// A document stored.
fn policy_added<J: JsonTree>(
    alloc: Global,
    number: Option<u64>,
    document: &J,
) -> Result<Edit, NoEdit>
    ensures { Makes result (edit_of (asked.add_policy number (J.content document.now))) }
{
    let document = read_document(alloc, document)?;
    Ok(Edit::AddPolicy(module_number(number), document))
}

/// A document stored in the place of another.
fn policy_replaced<J: JsonTree>(
    alloc: Global,
    number: Option<u64>,
    document: &J,
) -> Result<Edit, NoEdit>
    ensures { Makes result (edit_of (asked.replace_policy number (J.content document.now))) }
{
    let document = read_document(alloc, document)?;
    Ok(Edit::ReplacePolicy(module_number(number), document))
}

/// A document withdrawn.
fn policy_withdrawn(
    alloc: Global,
    number: Option<u64>,
    kind: Kind,
    id: &str,
    version: &str,
) -> Result<Edit, NoEdit>
    ensures { Makes result (edit_of (asked.withdraw_policy number kind id.now version.now)) }
{
    let Some(version) = Version::parse(version) else {
        return Err(NoEdit::Unreadable(EditFault::BadValue));
    };
    let id = Text::from_str(alloc, id)?;
    let key = DocKey { kind, id, version };
    Ok(Edit::WithdrawPolicy(module_number(number), key))
}

/// The refusal of a row whose type or a value can't be read.
#[tactic(auto, using(crate::proofs::ReadLemmas::values_counted))]
fn row_fault<J: JsonTree>(row: &AskedRow<'_, J>) -> EditFault
    ensures { result ≡ row_fault (row_view J.content row.now) }
{
    if row.values.len() > MOST_VALUES {
        EditFault::Limit
    } else if is_reserved(row.category, row.attribute) {
        EditFault::Reserved
    } else {
        EditFault::BadValue
    }
}

/// The values of a row set.
fn attribute_set<J: JsonTree>(
    alloc: Global,
    number: Option<u64>,
    row: &AskedRow<'_, J>,
) -> Result<Edit, NoEdit>
    ensures { Makes result (edit_of (asked.set_attribute number (row_view J.content row.now))) }
{
    match read_row(alloc, row)? {
        Some((key, values)) => Ok(Edit::SetAttribute(module_number(number), key, values)),
        None => Err(NoEdit::Unreadable(row_fault(row))),
    }
}

/// The root set, or none.
fn root_set<J: JsonTree>(alloc: Global, reference: &J) -> Result<Edit, NoEdit>
    ensures { Makes result (edit_of (asked.set_root (J.content reference.now))) }
{
    Ok(Edit::SetRoot(read_root(alloc, reference)?))
}

/// The day set, or none.
fn day_set(alloc: Global, day: Option<&str>) -> Result<Edit, NoEdit>
    ensures { Makes result (edit_of (asked.set_day (option_copied day.entry))) }
{
    let Some(text) = day else {
        return Ok(Edit::SetDay(None));
    };
    match read_day(alloc, text) {
        Some(day) => Ok(Edit::SetDay(Some(day))),
        None => Err(NoEdit::Unreadable(EditFault::BadValue)),
    }
}

/// The moment set, or none.
fn moment_set(alloc: Global, moment: Option<&str>) -> Result<Edit, NoEdit>
    ensures { Makes result (edit_of (asked.set_moment (option_copied moment.entry))) }
{
    let Some(text) = moment else {
        return Ok(Edit::SetMoment(None));
    };
    match read_moment(alloc, text) {
        Some(moment) => Ok(Edit::SetMoment(Some(moment))),
        None => Err(NoEdit::Unreadable(EditFault::BadValue)),
    }
}

/// The edit that a change makes, with what is read of it.
///
/// Its contract leaves open: when it answers want of memory.
pub fn read_edit<J: JsonTree>(alloc: Global, change: EditCommand<'_, J>) -> Result<Edit, NoEdit>
    ensures { Makes result (edit_of (change_view J.content change.entry)) }
{
    match change {
        EditCommand::AddName(list, name) => name_added(alloc, list, name),
        EditCommand::DropName(list, name) => name_dropped(alloc, list, name),
        EditCommand::AddPolicy(number, document) => policy_added(alloc, number, document),
        EditCommand::ReplacePolicy(number, document) => policy_replaced(alloc, number, document),
        EditCommand::WithdrawPolicy(number, kind, id, version) => {
            policy_withdrawn(alloc, number, kind, id, version)
        }
        EditCommand::SetAttribute(number, row) => attribute_set(alloc, number, &row),
        EditCommand::SetRoot(reference) => root_set(alloc, reference),
        EditCommand::SetDay(day) => day_set(alloc, day),
        EditCommand::SetMoment(moment) => moment_set(alloc, moment),
    }
}
