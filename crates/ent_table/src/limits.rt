//! How large a review may grow.

ghost use Rattle.std.specs.Prelude.{◌≡◌};
ghost use Rattle.ent_table.specs.Limits.{standard_limits};

/// The most names, cells and documents that a review may have.
#[derive(Clone, Copy, Debug, PartialEq, Eq)]
pub struct Limits {
    pub people: usize,
    pub actions: usize,
    pub resources: usize,
    pub cells: usize,
    pub documents: usize,
}

impl Limits {
    /// Those that hold where none are given: 256 people, 32 actions, 256 resources, 65,536 cells and 1,024 documents.
    ///
    /// Its contract is an equation.
    pub fn standard() -> Limits
        ensures { result ≡ standard_limits }
    {
        Limits {
            people: 256,
            actions: 32,
            resources: 256,
            cells: 65_536,
            documents: 1_024,
        }
    }
}
