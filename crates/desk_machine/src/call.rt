//! What the desk is asked, and what it replies.
ghost use Rattle.std.specs.Prelude.{◌≡◌};
ghost use Rattle.desk_machine.specs.States.{key_standing, state_in};

use crate::grant::Grant;
use doppel_watch::WatchState;
use edge_kit::{Items, PubKey, Root};
use protect_record::Verdict;
use record_replay::KeyState;
use slash_defs::{Book, File, Message};

/// Keys, in any order.
pub type Keys = Items<PubKey>;

/// Messages of different keys.
pub type Proposals = Items<(PubKey, Message)>;

/// How a kept key stands.
#[derive(Clone, Copy, PartialEq, Eq, Debug)]
pub enum KeyStanding {
    /// It was never made active.
    Known,
    /// It is active, and its watch stands so. Where keys are not watched that is `WatchState::Allowed`.
    Active(WatchState),
    /// It is being closed.
    Closing,
    /// It was closed.
    Closed,
}

impl KeyStanding {
    /// How a key of this state stands whose watch stands so.
    pub fn of(state: KeyState, watch: WatchState) -> KeyStanding
        ensures { result ≡ key_standing state watch }
    {
        match state {
            KeyState::Known => KeyStanding::Known,
            KeyState::Active => KeyStanding::Active(watch),
            KeyState::Closing => KeyStanding::Closing,
            KeyState::Closed => KeyStanding::Closed,
        }
    }

    /// The state of a key that stands so.
    pub fn state(&self) -> KeyState
        ensures { result ≡ state_in self.now }
    {
        match self {
            KeyStanding::Known => KeyState::Known,
            KeyStanding::Active(_) => KeyState::Active,
            KeyStanding::Closing => KeyState::Closing,
            KeyStanding::Closed => KeyState::Closed,
        }
    }
}

/// Keys in order, each with how it stands.
pub type KeyStandings = Items<(PubKey, KeyStanding)>;

/// What became of a grant.
#[derive(Clone, Copy, PartialEq, Eq, Debug)]
pub enum Outcome {
    /// Sending was begun.
    Sent,
    /// Nothing was sent.
    Dropped,
}

/// A call of the desk, with its arguments. Moments are epochs.
pub enum DeskCall {
    /// Merges an interchange file (EIP-3076), which lists each key once.
    Merge {
        file: File,
    },
    /// Makes a key active.
    Activate {
        key: PubKey,
        now: u64,
    },
    /// Asks for leave to have a message signed by a key.
    Propose {
        key: PubKey,
        message: Message,
        now: u64,
    },
    /// Keeps messages of different keys, of which each would be granted and is not kept yet: by one batch, and
    /// without a grant. A proposal of any of them is a repeat after that.
    Record {
        proposals: Proposals,
        now: u64,
    },
    /// Asks for leave to have something signed by a key that is no block and no vote.
    Allow {
        key: PubKey,
        now: u64,
    },
    /// Tells whether a key was seen live in an epoch (Beacon API, `getLiveness`).
    Answer {
        key: PubKey,
        epoch: u64,
        live: bool,
        now: u64,
    },
    /// Spends an open grant of this desk.
    Settle {
        grant: Grant,
        outcome: Outcome,
    },
    /// Begins to close an active key: no more is granted for it.
    BeginClose {
        key: PubKey,
    },
    /// Closes a key that is being closed, once none of its grants is open.
    FinishClose {
        key: PubKey,
    },
    /// Asks for the interchange file of those of these keys that are kept.
    Export {
        keys: Keys,
    },
    /// Prunes the record of a key.
    Prune {
        key: PubKey,
    },
    /// Asks for the kept keys and how each stands.
    Keys,
    /// Asks whether the disk has failed since the desk was opened.
    HasFailed,
    /// Asks how many bytes the current file of the journal has, and at most how many a compaction would leave.
    Size,
    /// Writes what the desk keeps into the file that isn't current, and makes it the current one.
    Compact,
}

/// A reply of the desk.
pub enum DeskReply {
    /// The file is merged; how many keys it lists. Each is kept from now on.
    Merged { keys: u64 },
    /// The key is active from now on.
    Active,
    /// The key was active.
    Already,
    /// What was asked for may be signed and sent.
    Granted(Grant),
    /// The messages are kept.
    Recorded,
    /// What was told of the key is noted.
    Noted,
    /// The grant is spent.
    Settled,
    /// The key is being closed from now on.
    CloseBegun,
    /// The key was being closed.
    AlreadyClosing,
    /// The key is closed, and this is what is handed over of it.
    Closed(Book),
    /// The interchange file, its keys in key order.
    Exported(File),
    /// The key's record is pruned: it has gained this book.
    Pruned(Book),
    /// The kept keys in order, each with how it stands.
    Keys(KeyStandings),
    /// Whether the disk has failed.
    HasFailed(bool),
    /// The size in bytes of the current file, up to and with its closed gate; and its weight: at most how many
    /// bytes a compaction would leave, told by counts alone, or 2^64 - 1 where that is less.
    Size { size: u64, weight: u64 },
    /// The journal is compacted: the sizes in bytes of the file that was current and of the one that is now.
    Compacted { before: u64, after: u64 },
    /// The file is of a chain with another root of genesis validators.
    GenesisDiffers { kept: Root, given: Root },
    /// No past is kept of the key.
    Unknown,
    /// A past is kept of the key, and it is neither active nor being closed.
    NotActive,
    /// The key is being closed.
    Closing,
    /// The key is in this state, and not being closed.
    NotClosing(KeyState),
    /// So many grants of the key are open.
    Busy { grants: u64 },
    /// The key is watched, and was told live in this watched epoch: it may sign nothing.
    Live { epoch: u64 },
    /// The key is watched, and of these watched epochs, the lesser first, no answer counted yet: it may sign
    /// nothing.
    Watching { first: u64, second: Option<u64> },
    /// The key's past forbids the message; never `Verdict::Pass`.
    Refused(Verdict),
    /// One of the messages would not be granted, or is kept already. But for the latest moment, the desk is as before.
    Unfit,
    /// `have` keys are kept, and with the `new` ones there would be more than 65,536.
    TooManyKeys { have: u64, new: u64 },
    /// The current file has the generation 2^64 - 1, behind which there is none. The desk is as before.
    LastGeneration,
    /// The batch has more than 2^32 - 1 bytes, or the journal of `size` bytes would have more than 2^40 with
    /// the `wanted` ones; a compacted file begins anew, with a `size` of 0. But for the latest moment, the desk
    /// is as before.
    Full { size: u64, wanted: u64 },
    /// The disk failed, in this call or in an earlier one since the desk was opened. The desk grants nothing
    /// more until it is opened again.
    Disk,
    /// Memory ran out. But for the latest moment, the desk is as before.
    OutOfMemory,
}
