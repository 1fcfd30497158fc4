//! Why a request is refused, and the reply that says so.
ghost use Rattle.std.specs.Prelude.{◌≡◌, IfOk};
ghost use Rattle.signing_requests.specs.Refusals.{refusal_reply};

use crate::member::SigningMember;
use keymanager_routes::Reply;
use std::alloc::{AllocError, AllocFailed, Global};

/// Why a request is refused: the first check that it fails. Nothing is done then.
#[derive(Clone, Copy, PartialEq, Eq, Debug)]
pub enum SigningRefusal {
    /// A part of the request is absent or cannot be read.
    BadMember(SigningMember),
    /// The request is of a chain with another root of genesis validators.
    GenesisDiffers,
    /// The request names another root than that of what is to be signed.
    SigningRootDiffers,
    /// The request is for a registration with builders, and of the chain that is served the version at genesis is not known.
    UnknownNetwork,
}

impl SigningRefusal {
    /// The reply: status 400, and a message. The error is want of memory.
    pub fn reply(&self, alloc: Global) -> Result<Reply, AllocError>
        ensures { IfOk result (λ r. r ≡ refusal_reply self.now) }
    {
        match self {
            SigningRefusal::BadMember(member) => Reply::of_word(
                alloc,
                400,
                "bad member: ",
                member.name(),
            ),
            SigningRefusal::GenesisDiffers => Reply::of_message(alloc, 400, "genesis differs"),
            SigningRefusal::SigningRootDiffers => Reply::of_message(
                alloc,
                400,
                "signing root differs",
            ),
            SigningRefusal::UnknownNetwork => Reply::of_message(alloc, 400, "unknown network"),
        }
    }
}

/// Why the reading of a request stopped.
#[derive(Drop)]
pub enum SigningStop {
    /// Memory ran out.
    Memory,
    /// The request is refused.
    Refused(SigningRefusal),
}

impl From<AllocError> for SigningStop {
    ghost use Rattle.std.specs.Prelude.{◌≡◌};
    ghost use Rattle.signing_requests.specs.declared.refusal.SigningStop.TheVariants.{Memory};

    ghost from_gives = { λ _ s. s ≡ Memory };

    fn from(_error: AllocError) -> SigningStop {
        SigningStop::Memory
    }
}

impl<T: Drop> From<AllocFailed<T>> for SigningStop {
    ghost use Rattle.std.specs.Prelude.{◌≡◌};
    ghost use Rattle.signing_requests.specs.declared.refusal.SigningStop.TheVariants.{Memory};

    ghost from_gives = { λ _ s. s ≡ Memory };

    fn from(_error: AllocFailed<T>) -> SigningStop {
        SigningStop::Memory
    }
}

impl From<SigningRefusal> for SigningStop {
    ghost use Rattle.std.specs.Prelude.{◌≡◌};
    ghost use Rattle.signing_requests.specs.declared.refusal.SigningStop.TheVariants.{Refused};

    ghost from_gives = { λ refusal s. s ≡ Refused refusal };

    fn from(refusal: SigningRefusal) -> SigningStop {
        SigningStop::Refused(refusal)
    }
}
