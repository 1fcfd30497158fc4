//! What an object in memory keeps of its calls.
ghost use Rattle.std.specs.Prelude.{◌≡◌, IfOk};

use crate::faults::count_fault;
use crate::traits::Failed;
use std::alloc::{AllocError, Global};

/// How many calls came, which of them are to fail by their numbers from 0, and how many failed. Each count
/// stands still at 18446744073709551615.
#[derive(Drop)]
pub(crate) struct Calls {
    pub(crate) count: u64,
    pub(crate) failing: Vec<u64>,
    pub(crate) faults: u64,
}

impl Calls {
    ghost use Rattle.edge_kit.specs.Calls.{AreNew, fails_next, IsBegun, IsFailed};

    /// No call yet.
    pub(crate) fn new(failing: Vec<u64>) -> Self
        ensures { AreNew result failing.items }
    {
        Calls {
            count: 0,
            failing,
            faults: 0,
        }
    }

    /// No call yet, the same ones of which are to fail. The error is want of memory.
    pub(crate) fn anew(&self, alloc: Global) -> Result<Self, AllocError>
        ensures { IfOk result (λ calls. AreNew calls self.now.failing.items) }
    {
        let failing = Vec::from_slice(alloc, self.failing.as_slice())?;
        Ok(Calls::new(failing))
    }

    /// Counts a call, and answers whether it is one that is to fail.
    pub(crate) fn begin(&mut self) -> bool
        ensures fails { result ≡ fails_next self.old }
        ensures begun { IsBegun self.old self.new }
    {
        let call = self.count;
        self.count = call.saturating_add(1);
        self.failing.contains(&call)
    }

    /// Counts a failure.
    pub(crate) fn fail(&mut self) -> Failed
        ensures { IsFailed self.old self.new }
    {
        count_fault(&mut self.faults)
    }
}
