//! A signer that is out of memory.
use edge_kit::PubKey;
use signer_link::{DeleteReply, ImportReply, PlainRequest, SignReply, SignRequest, Signer};
use slash_defs::Granted;
use std::alloc::{AllocError, Global};

/// A signer that wants memory at each call.
#[derive(Clone, Copy, Drop)]
pub(crate) struct Exhausted;

impl Signer for Exhausted {
    ghost use Rattle.std.specs.Prelude.{None};

    ghost told = { λ _. None };

    ghost faults = { λ _. 0 };

    ghost denials = { λ _. 0 };

    fn sign<G: Granted>(&mut self, _request: &SignRequest, _grant: &G) -> SignReply {
        SignReply::OutOfMemory
    }

    fn sign_plain<G: Granted>(&mut self, _request: &PlainRequest, _grant: &G) -> SignReply {
        SignReply::OutOfMemory
    }

    fn import(&mut self, _key: &PubKey, _keystore: &str, _password: &str) -> ImportReply {
        ImportReply::OutOfMemory
    }

    fn delete(&mut self, _key: &PubKey) -> DeleteReply {
        DeleteReply::OutOfMemory
    }

    fn twin(&self, _alloc: Global) -> Result<Self, AllocError> {
        Ok(*self)
    }
}
