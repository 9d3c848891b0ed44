//! The members of JSON arrays.

ghost use Rattle.std.specs.Prelude.{◌≡◌, map, option_map};
ghost use Rattle.std.specs.Option.{option_copied};
ghost use Rattle.lint_places.specs.Places.{listed};
ghost use Rattle.lint_places.specs.Told.{list_of};

use ent_json::JsonTree;

/// The members of what should be an array.
#[tactic(auto, using(crate::proofs::ListLemmas::members_of_items))]
pub(crate) fn list<J: JsonTree>(json: &J) -> Option<&[J]>
    ensures { option_map (λ v. map J.content v.now) result ≡ list_of (J.content json.now) }
{
    json.as_array()
}

/// The members of what should be an array, none where it isn't one.
pub(crate) fn listed<J: JsonTree>(json: Option<&J>) -> &[J]
    ensures { map J.content result.now ≡ listed (option_map J.content (option_copied json.entry)) }
{
    match json {
        Some(json) => list(json).unwrap_or(&[]),
        None => &[],
    }
}
