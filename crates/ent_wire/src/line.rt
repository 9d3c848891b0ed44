//! How long a line may be.

/// The most bytes that a line may have.
pub const LINE_LIMIT: usize = 1_048_576;
