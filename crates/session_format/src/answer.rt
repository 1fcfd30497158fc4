//! The answer of a line, and its bytes.
ghost use Rattle.std.specs.Prelude.{◌≡◌, IfOk, string_bytes};
ghost use Rattle.serde_json.specs.View.{view};
ghost use Rattle.session_format.specs.Answers.{answer_data, answer_text};

use crate::cause::Cause;
use crate::member::Member;
use crate::request::Keys;
use crate::values::{
    compacted, done_value, exported, fault_value, full, genesis_differs, live, merged, refused,
    signed, too_many_keys, verdict_value, watching, with_name,
};
use custody_format::{busy_value, deleted_value, imported_value, listed_value, not_closing_value};
use edge_kit::{Root, Sig};
use interchange_io::ReadFault;
use key_custody::KeyStatuses;
use protect_record::Verdict;
use record_replay::KeyState;
use serde_json::Value;
use slash_defs::File;
use std::alloc::{AllocError, Global};

/// The answer of a line.
#[derive(Drop)]
pub enum Answer {
    /// The file is merged; how many keys it lists.
    Merged { keys: u64 },
    /// The key is active.
    Active,
    /// What became of the keys that were to be taken in.
    Imported { statuses: KeyStatuses },
    /// What became of the keys that were to be given up, and the interchange file of those that are deleted or were
    /// not active.
    Deleted { statuses: KeyStatuses, file: File },
    /// The active keys, in order.
    Listed { keys: Keys },
    /// The signature of the message's root.
    Signed { signature: Sig, root: Root },
    /// The proposal was granted, and has no signature.
    Unsigned(Cause),
    /// The interchange file of the keys.
    Exported(File),
    /// The key's record is pruned.
    Pruned,
    /// What was told of the key is noted.
    Noted,
    /// What the desk keeps is written into the journal's other file, which is the current one now: the sizes in bytes of
    /// the file that was current before, and of this one.
    Compacted { before: u64, after: u64 },
    /// A member of the line is absent or has no reading. Nothing was done.
    BadRequest(Member),
    /// The text is no interchange file. Nothing was done.
    BadFile(ReadFault),
    /// The file is of another chain. Nothing was done.
    GenesisDiffers { kept: Root, given: Root },
    /// There would be too many keys. Nothing was done.
    TooManyKeys { have: u64, new: u64 },
    /// The journal has no room: its size in bytes, and how many more were wanted; of a compaction 0, and how many
    /// bytes the other file would have. Nothing was done.
    Full { size: u64, wanted: u64 },
    /// The journal is in its last generation, and cannot be compacted. Nothing was done.
    LastGeneration,
    /// The disk failed, for this line or an earlier one.
    Disk,
    /// No past is kept of the key.
    Unknown,
    /// The key is neither active nor being closed.
    NotActive,
    /// The key is being closed.
    Closing,
    /// The key is in this state, and not being closed.
    NotClosing { state: KeyState },
    /// So many grants of the key are open.
    Busy { grants: u64 },
    /// The key is watched, and was told live in this epoch of its watch.
    Live { epoch: u64 },
    /// The key is watched, and of these epochs, the lesser first, nothing counted yet.
    Watching { first: u64, second: Option<u64> },
    /// The key's past forbids the message.
    Refused(Verdict),
}

impl Answer {
    /// The bytes of the answer's line: compact JSON, members in byte order of their names, and a newline.
    /// The error is want of memory.
    pub fn line(&self, alloc: Global) -> Result<String, AllocError>
        ensures { IfOk result (λ text. string_bytes text ≡ answer_text self.now) }
    {
        let mut text = self.value(alloc)?.to_string(alloc)?;
        text.push('\n')?;
        Ok(text)
    }

    fn value(&self, alloc: Global) -> Result<Value, AllocError>
        ensures { IfOk result (λ v. view v ≡ answer_data self.now) }
    {
        match self {
            Answer::Merged { keys } => merged(alloc, *keys),
            Answer::Active => done_value(alloc, "active"),
            Answer::Imported { statuses } => imported_value(alloc, statuses.as_slice()),
            Answer::Deleted { statuses, file } => deleted_value(alloc, statuses.as_slice(), file),
            Answer::Listed { keys } => listed_value(alloc, keys.as_slice()),
            Answer::Signed { signature, root } => signed(alloc, signature, root),
            Answer::Unsigned(cause) => cause.value(alloc),
            Answer::Exported(file) => exported(alloc, file),
            Answer::Pruned => done_value(alloc, "pruned"),
            Answer::Noted => done_value(alloc, "noted"),
            Answer::Compacted { before, after } => compacted(alloc, *before, *after),
            Answer::BadRequest(member) => with_name(alloc, member.name(), "bad_request"),
            Answer::BadFile(fault) => fault_value(alloc, fault),
            Answer::GenesisDiffers { kept, given } => genesis_differs(alloc, kept, given),
            Answer::TooManyKeys { have, new } => too_many_keys(alloc, *have, *new),
            Answer::Full { size, wanted } => full(alloc, *size, *wanted),
            Answer::LastGeneration => refused(alloc, "last_generation"),
            Answer::Disk => refused(alloc, "disk"),
            Answer::Unknown => refused(alloc, "unknown"),
            Answer::NotActive => refused(alloc, "not_active"),
            Answer::Closing => refused(alloc, "closing"),
            Answer::NotClosing { state } => not_closing_value(alloc, *state),
            Answer::Busy { grants } => busy_value(alloc, *grants),
            Answer::Live { epoch } => live(alloc, *epoch),
            Answer::Watching { first, second } => watching(alloc, *first, *second),
            Answer::Refused(verdict) => verdict_value(alloc, verdict),
        }
    }
}
