//! The changes that an object asks for.

ghost use Rattle.std.specs.Prelude.{◌≡◌, codes, option_map};
ghost use Rattle.serde_json.specs.Find.{get};
ghost use Rattle.ent_command.specs.Asked as asked;
ghost use Rattle.ent_command.specs.Asked.{naming, setting, storing, withdrawing};
ghost use Rattle.ent_command.specs.Keys.{null_or_text_at};
ghost use Rattle.ent_command.specs.CommandView.{change_view};

use crate::command::EditCommand;
use crate::keys::{kind_named, null_or_text_at, number_at, row_in};
use ent_json::{JsonTree, text_at};
use ent_table::List;

/// `person.add`, `action.add` and `resource.add`.
#[tactic(auto, unfolding(crate::specs::Asked::naming))]
pub(crate) fn add_name<J: JsonTree>(list: List, object: &J) -> Option<EditCommand<'_, J>>
    ensures { option_map (change_view J.content) result
        ≡ naming (asked.add_name list) (J.content object.now) }
{
    let name = text_at(object, "name")?;
    Some(EditCommand::AddName(list, name))
}

/// `person.drop`, `action.drop` and `resource.drop`.
#[tactic(auto, unfolding(crate::specs::Asked::naming))]
pub(crate) fn drop_name<J: JsonTree>(list: List, object: &J) -> Option<EditCommand<'_, J>>
    ensures { option_map (change_view J.content) result
        ≡ naming (asked.drop_name list) (J.content object.now) }
{
    let name = text_at(object, "name")?;
    Some(EditCommand::DropName(list, name))
}

/// `policy.add`.
#[tactic(auto, unfolding(crate::specs::Asked::storing))]
pub(crate) fn add_policy<J: JsonTree>(object: &J) -> Option<EditCommand<'_, J>>
    ensures { option_map (change_view J.content) result
        ≡ storing asked.add_policy (J.content object.now) }
{
    let number = number_at(object, "module", 0)?;
    let document = object.get("document")?;
    Some(EditCommand::AddPolicy(number, document))
}

/// `policy.replace`.
#[tactic(auto, unfolding(crate::specs::Asked::storing))]
pub(crate) fn replace_policy<J: JsonTree>(object: &J) -> Option<EditCommand<'_, J>>
    ensures { option_map (change_view J.content) result
        ≡ storing asked.replace_policy (J.content object.now) }
{
    let number = number_at(object, "module", 0)?;
    let document = object.get("document")?;
    Some(EditCommand::ReplacePolicy(number, document))
}

/// `policy.withdraw`.
#[tactic(auto, unfolding(crate::specs::Asked::withdrawing))]
pub(crate) fn withdraw_policy<J: JsonTree>(object: &J) -> Option<EditCommand<'_, J>>
    ensures { option_map (change_view J.content) result
        ≡ withdrawing (J.content object.now) }
{
    let number = number_at(object, "module", 0)?;
    let kind = kind_named(text_at(object, "kind")?)?;
    let id = text_at(object, "id")?;
    let version = text_at(object, "version")?;
    Some(EditCommand::WithdrawPolicy(number, kind, id, version))
}

/// `attr.set`.
#[tactic(auto, unfolding(crate::specs::Asked::setting))]
pub(crate) fn set_attribute<J: JsonTree>(object: &J) -> Option<EditCommand<'_, J>>
    ensures { option_map (change_view J.content) result
        ≡ setting (J.content object.now) }
{
    let number = number_at(object, "module", 0)?;
    let row = row_in(object)?;
    Some(EditCommand::SetAttribute(number, row))
}

/// `root.set`.
pub(crate) fn set_root<J: JsonTree>(object: &J) -> Option<EditCommand<'_, J>>
    ensures { option_map (change_view J.content) result
        ≡ option_map asked.set_root (get (codes "reference") (J.content object.now)) }
{
    let reference = object.get("reference")?;
    Some(EditCommand::SetRoot(reference))
}

/// `day.set`.
pub(crate) fn set_day<J: JsonTree>(object: &J) -> Option<EditCommand<'_, J>>
    ensures { option_map (change_view J.content) result
        ≡ option_map asked.set_day (null_or_text_at (codes "day") (J.content object.now)) }
{
    let day = null_or_text_at(object, "day")?;
    Some(EditCommand::SetDay(day))
}

/// `moment.set`.
pub(crate) fn set_moment<J: JsonTree>(object: &J) -> Option<EditCommand<'_, J>>
    ensures { option_map (change_view J.content) result
        ≡ option_map asked.set_moment (null_or_text_at (codes "moment") (J.content object.now)) }
{
    let moment = null_or_text_at(object, "moment")?;
    Some(EditCommand::SetMoment(moment))
}
