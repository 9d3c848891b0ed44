//! That each request can be asked.

ghost use Rattle.ent_profile.specs.Spelled.{RequestsReadBack};

/// A law, with nothing to run: for each request there is a JSON value that [`crate::read_request`] reads as that
/// request. The request has at most 256 categories, none of them twice; a category has at most 256 attributes, an
/// attribute at most 256 values, of which no duration has more than 999,999,999 whole years; ids and issuers have 1 to
/// 256 bytes, and no category's id is a short name, since that stands for its URI.
pub fn requests_read_back()
    ensures { RequestsReadBack }
{}
