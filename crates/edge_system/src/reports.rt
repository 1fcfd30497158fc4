//! Which reports are made on standard error.

/// Which reports are made on standard error.
#[derive(Clone, Copy, Debug)]
pub enum Reports {
    /// All of them.
    All,
    /// Those of faults alone.
    Faults,
}

impl Reports {
    /// Whether what is no fault is reported, too.
    pub fn has_news(self) -> bool {
        matches!(self, Reports::All)
    }
}
