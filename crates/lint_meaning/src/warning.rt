//! What is told of a part of a document, and of which part.

use ent_policy::Effect;
use ent_values::Text;

/// What may not be meant.
#[derive(PartialEq, Eq, Drop)]
pub enum Meaning {
    /// A variable is defined, and no expression of its policy names it (section 5.23).
    Unused,
    /// A condition asks for nothing, so it comes to the same for each request (section 5.26).
    Fixed,
    /// A rule never decides, since the rule of that id has the same target and condition (section 5.21, appendix C).
    Overruled(Text),
    /// An argument of an `and` asks of a value what the argument of that number excludes (appendix A.3.5).
    Apart(usize),
    /// Nothing is less than a literal, and less is asked for (appendices A.2, A.3.6 and A.3.8).
    Least,
    /// An obligation or an advice is for an effect that its set never gives (section 7.18).
    Never(Effect),
}

/// A part of a document that may not be meant.
#[derive(PartialEq, Eq, Drop)]
pub struct Warning {
    /// Its place in the document, as a JSON pointer (RFC 6901).
    pub pointer: Text,
    /// What may not be meant.
    pub meaning: Meaning,
}
