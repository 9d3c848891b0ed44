//! What a hasher is fed for what is asked: all that many questions may differ in, so all but a kind and a type.

ghost use Rattle.std.specs.Prelude.{◌≡◌, fold};
ghost use Rattle.std.specs.List.{flat_map};
ghost use Rattle.ent_request.specs.proofs_only.Hashed.{attribute_input, part_input, pattern_input, reference_input};

use ent_policy::{PatternPart, Reference, VersionMatch};
use ent_values::Text;
use std::hash::{Hash, Hasher};

/// What is fed for `*`: no number of a pattern is as large.
const ANY: u32 = 4_294_967_293;

/// What is fed for `+`.
const MORE: u32 = 4_294_967_294;

/// What is fed behind the parts of a pattern.
const END: u32 = 4_294_967_295;

// Feeds a hasher a part of a pattern.
fn feed_part<H: Hasher>(part: &PatternPart, state: &mut H)
    ensures { state.new ≡ fold H.write state.old (part_input part.now) }
{
    match part {
        PatternPart::Number(number) => state.write_u32(*number),
        PatternPart::Any => state.write_u32(ANY),
        PatternPart::More => state.write_u32(MORE),
    }
}

// Feeds it these parts.
fn feed_parts<H: Hasher>(parts: &[PatternPart], state: &mut H)
    ensures { state.new ≡ fold H.write state.old (flat_map part_input parts.now) }
{
    for part in parts {
        feed_part(part, state);
    }
}

// Feeds it a pattern, if there is one, and where it ends.
fn feed_pattern<H: Hasher>(pattern: &Option<VersionMatch>, state: &mut H)
    ensures { state.new ≡ fold H.write state.old (pattern_input pattern.now) }
{
    if let Some(pattern) = pattern {
        feed_parts(pattern.parts(), state);
    }
    state.write_u32(END);
}

// Feeds it a reference.
pub(crate) fn feed_reference<H: Hasher>(reference: &Reference, state: &mut H)
    ensures { state.new ≡ fold H.write state.old (reference_input reference.now) }
{
    reference.id.as_str().hash(state);
    feed_pattern(&reference.constraints.version, state);
    feed_pattern(&reference.constraints.earliest, state);
    feed_pattern(&reference.constraints.latest, state);
}

// Feeds it what tells an attribute from others: its id, its category and its issuer.
pub(crate) fn feed_attribute<H: Hasher>(
    attribute: &Text,
    category: &Text,
    issuer: &Option<Text>,
    state: &mut H,
)
    ensures { state.new ≡ fold H.write state.old (attribute_input attribute.now category.now issuer.now) }
{
    attribute.hash(state);
    category.hash(state);
    issuer.hash(state);
}
