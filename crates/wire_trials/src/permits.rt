//! What may be signed.
ghost use Rattle.std.specs.Prelude.{Some};

use edge_kit::{PubKey, Root};
use slash_defs::{Granted, Message};

/// Allows one message to be signed by one key.
#[derive(Clone, Copy)]
pub struct Permit {
    key: PubKey,
    message: Message,
}

impl Granted for Permit {
    ghost granted_key = { λ p. p.key };

    ghost granted_message = { λ p. Some p.message };

    fn key(&self) -> &PubKey {
        &self.key
    }

    fn what(&self) -> Option<&Message> {
        Some(&self.message)
    }
}

/// The key of ones.
pub const KEY: PubKey = PubKey([1; 48]);

/// Allows a block of slot 9 to be signed by the key of ones.
pub const PERMIT: Permit = Permit {
    key: KEY,
    message: Message::Block {
        slot: 9,
        root: Root([2; 32]),
    },
};
