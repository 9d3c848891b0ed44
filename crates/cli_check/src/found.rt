//! What a check found.

/// How many faults were told, and how many warnings.
#[derive(Clone, Copy, Debug, PartialEq, Eq)]
pub struct FaultCount {
    /// What is wrong.
    pub faults: usize,
    /// What may not be meant.
    pub warnings: usize,
}

impl FaultCount {
    /// Nothing.
    pub(crate) fn nothing() -> FaultCount {
        FaultCount {
            faults: 0,
            warnings: 0,
        }
    }

    /// So many more.
    pub(crate) fn add(&mut self, faults: usize, warnings: usize) {
        self.faults = self.faults.saturating_add(faults);
        self.warnings = self.warnings.saturating_add(warnings);
    }
}
