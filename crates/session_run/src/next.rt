//! What comes next of an input.
ghost use Rattle.std.specs.Prelude.{◌≡◌};

use program_end::Limit;
use std::alloc::AllocError;

/// What comes next of an input.
#[derive(Drop)]
pub enum Next {
    /// A line that a newline ended, without it.
    Line(Vec<u8>),
    /// What stood behind the last newline, maybe nothing.
    Last(Vec<u8>),
}

/// Why no line comes.
#[derive(Clone, Copy, PartialEq, Eq, Debug)]
pub enum LineFault {
    /// Memory ran out.
    Memory,
    /// The source failed; its count of faults rose.
    Read,
    /// The input passed a limit.
    TooLong(Limit),
}

impl From<AllocError> for LineFault {
    ghost use Rattle.session_run.specs.declared.next.LineFault.TheVariants.{Memory};

    ghost from_gives = { λ _ e. e ≡ Memory };

    fn from(_error: AllocError) -> LineFault {
        LineFault::Memory
    }
}
