//! A sign to several threads that they shall end.
use std::sync::atomic::{AtomicBool, Ordering};

/// Whether several threads shall end. It is not raised at first, and once raised it stays so.
#[derive(Drop)]
pub struct Halt {
    is_raised: AtomicBool,
}

impl Halt {
    /// One that is not raised.
    pub fn new() -> Self {
        Halt {
            is_raised: AtomicBool::new(false),
        }
    }

    /// Raises it.
    pub fn raise(&self) {
        self.is_raised.store(true, Ordering::SeqCst);
    }

    /// Whether anyone raised it.
    pub fn is_raised(&self) -> bool {
        self.is_raised.load(Ordering::SeqCst)
    }
}
