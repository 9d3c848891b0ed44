//! Parts of requests that may be one or many, and how many there may be.

ghost use Rattle.std.specs.Prelude.{◌≡◌, map, option_map};
ghost use Rattle.serde_json.specs.Find.{get};
ghost use Rattle.ent_profile.specs.Asks.{is_unset, name_in};
ghost use Rattle.ent_profile.specs.Reading.{Reads, at_most, maybe, none_or_many, one_or_many};

use crate::fault::RequestFault;
use ent_json::{JsonTree, flag_at};
use ent_values::Text;
use std::alloc::Global;

/// How many members a list of a request may have.
pub(crate) const MOST_MEMBERS: usize = 256;

/// How many bytes a name may have.
const MOST_BYTES: usize = 256;

/// The members of an array; every other value stands for itself.
#[tactic(auto, using(crate::proofs::ReadLemmas::many_members, crate::proofs::ReadLemmas::one_member))]
pub(crate) fn one_or_many<J: JsonTree>(value: &J) -> &[J]
    ensures { map J.content result.now ≡ one_or_many (J.content value.now) }
{
    match value.as_array() {
        Some(values) => values,
        None => value.as_one(),
    }
}

/// What stands at a key, as a list, which is empty where the key is absent.
pub(crate) fn none_or_many<'a, J: JsonTree>(object: &'a J, key: &str) -> &'a [J]
    ensures { map J.content result.now ≡ none_or_many (get key.now (J.content object.now)) }
{
    match object.get(key) {
        None => &[],
        Some(value) => one_or_many(value),
    }
}

/// The list, unless it has more members than that.
pub(crate) fn at_most<J: JsonTree>(most: usize, values: &[J]) -> Option<&[J]>
    ensures { option_map (λ s. map J.content s.now) result ≡ at_most most (map J.content values.now) }
{
    if values.len() > most {
        return None;
    }
    Some(values)
}

/// A text of 1 to 256 bytes.
pub(crate) fn name_in<J: JsonTree>(value: &J) -> Option<&str>
    ensures { option_map (λ s. s.now) result ≡ name_in (J.content value.now) }
{
    let text = value.as_str()?;
    if text.is_empty() || text.len() > MOST_BYTES {
        return None;
    }
    Some(text)
}

/// A copy of the text of 1 to 256 bytes at a key, if it is there.
pub(crate) fn maybe_name_at<J: JsonTree>(
    alloc: Global,
    object: &J,
    key: &str,
) -> Result<Option<Text>, RequestFault>
    ensures { Reads result (maybe name_in (get key.now (J.content object.now))) }
{
    match object.get(key) {
        None => Ok(None),
        Some(value) => {
            let name = name_in(value).ok_or(RequestFault::Bad)?;
            Ok(Some(Text::from_str(alloc, name)?))
        }
    }
}

/// Whether a flag is absent or false.
pub(crate) fn is_unset<J: JsonTree>(object: &J, key: &str) -> bool
    ensures { result ≡ is_unset key.now (J.content object.now) }
{
    flag_at(object, key) == Some(false)
}
