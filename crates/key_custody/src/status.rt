//! What became of a key, and why.
ghost use Rattle.std.specs.Prelude.{◌≡◌};
ghost use Rattle.key_custody.specs.Statuses.{is_handed};

use edge_kit::{Items, Root};
use record_replay::KeyState;

/// Why the desk refused. Where memory ran out nothing is refused: the call ends.
#[derive(Clone, Copy, PartialEq, Eq, Debug)]
pub enum DeskRefusal {
    /// The file is of a chain with another root of genesis validators.
    GenesisDiffers { kept: Root, given: Root },
    /// `have` keys are kept, and with the `new` ones there would be more than may be kept.
    TooManyKeys { have: u64, new: u64 },
    /// The journal of `size` bytes has no room for the `wanted` ones.
    Full { size: u64, wanted: u64 },
    /// The disk failed, in this call or before.
    Disk,
    /// The key is being closed.
    Closing,
    /// No past is kept of the key.
    Unknown,
    /// The key is in this state, and not being closed.
    NotClosing(KeyState),
    /// So many grants of the key are open.
    Busy { grants: u64 },
}

/// Why a key was neither taken in nor given up.
#[derive(Drop)]
pub enum Reason {
    /// The keystore is no JSON object with a public key as its member `pubkey`.
    BadKeystore,
    /// The service that signs failed; its count of faults rose.
    SignerFault,
    /// The service refused, with this text in UTF-8; its count of denials rose.
    SignerRefused(Items<u8>),
    /// The service answered something else; the bytes of the answer's body.
    SignerBadAnswer(Items<u8>),
    /// The desk refused.
    Desk(DeskRefusal),
}

/// What became of one key (Keymanager API, the `status` of a keystore).
#[derive(Drop)]
pub enum KeyStatus {
    /// The service holds the key, and it is active at the desk.
    Imported,
    /// The key was active.
    Duplicate,
    /// The service does not sign by the key any more, and it is closed at the desk.
    Deleted,
    /// A past is kept of the key, and it was neither active nor being closed.
    NotActive,
    /// No past is kept of the key.
    NotFound,
    /// The key is as the reason says: what was done before it stays done.
    Error(Reason),
}

impl KeyStatus {
    /// Whether a deletion that ends so hands out what is kept of the key.
    pub(crate) fn is_handed(&self) -> bool
        ensures { result ≡ is_handed self.now }
    {
        matches!(self, KeyStatus::Deleted | KeyStatus::NotActive)
    }
}

/// What became of keys, in their order.
pub type KeyStatuses = Items<KeyStatus>;
