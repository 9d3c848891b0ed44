//! Which child is chosen.

use ent_request::Status;

/// Which child is the only one whose target matches (appendix C.9).
#[derive(Clone, Copy)]
pub(crate) enum Only {
    /// None of them.
    Nobody,
    /// The child at this place, the first being at 0, and no other.
    Child(usize),
    /// More than one, or a target is Indeterminate.
    Bad(Status),
}
