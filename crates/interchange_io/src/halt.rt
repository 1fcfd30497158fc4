//! Why reading a text stops before its end.
use json::Invalid;
use std::alloc::{AllocError, AllocFailed};

/// Why reading a text stops before its end.
#[derive(Clone, Copy, Drop)]
pub(crate) enum Halt {
    /// Memory ran out.
    Memory,
    /// The text is no JSON value.
    Json,
}

impl From<AllocError> for Halt {
    ghost use Rattle.std.specs.Prelude.{◌≡◌};
    ghost use Rattle.interchange_io.specs.declared.halt.Halt.TheVariants.{Memory};

    ghost from_gives = { λ _ s. s ≡ Memory };

    fn from(_error: AllocError) -> Halt {
        Halt::Memory
    }
}

impl<T: Drop> From<AllocFailed<T>> for Halt {
    ghost use Rattle.std.specs.Prelude.{◌≡◌};
    ghost use Rattle.interchange_io.specs.declared.halt.Halt.TheVariants.{Memory};

    ghost from_gives = { λ _ s. s ≡ Memory };

    fn from(_error: AllocFailed<T>) -> Halt {
        Halt::Memory
    }
}

impl From<Invalid> for Halt {
    ghost use Rattle.std.specs.Prelude.{◌≡◌};
    ghost use Rattle.interchange_io.specs.declared.halt.Halt.TheVariants.{Json};

    ghost from_gives = { λ _ s. s ≡ Json };

    fn from(_error: Invalid) -> Halt {
        Halt::Json
    }
}
