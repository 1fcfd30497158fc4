//! The answers as JSON.
ghost use Rattle.std.specs.Prelude.{◌≡◌, ◌++◌, IfOk, None, Some, string_bytes, codes, decimal};
ghost use Rattle.serde_json.specs.Data.{array, member, no_members, string};
ghost use Rattle.serde_json.specs.View.{view};
ghost use Rattle.session_format.specs.Answers.{answer_data, block_data, done, fault_data, missing_epochs, verdict_data, vote_data, with_entry, with_floor, with_member, with_reason, with_root};

use crate::answer::Answer;
use edge_kit::{Root, Sig};
use interchange_io::{ReadFault, write_text};
use json_members::Object;
use protect_record::Verdict;
use serde_json::{Value, json};
use slash_defs::{BlockEntry, File, VoteEntry};
use std::alloc::{AllocError, Global};

/// Done, with nothing more to say.
pub(crate) fn done_value(alloc: Global, word: &str) -> Result<Value, AllocError>
    ensures { IfOk result (λ v. view v ≡ done word.now) }
{
    let object = Object::new(alloc).with_text(alloc, "answer", word)?;
    Ok(object.value())
}

/// Refused for this reason, with nothing more to say.
pub(crate) fn refused(alloc: Global, reason: &str) -> Result<Value, AllocError>
    ensures { IfOk result (λ v. view v ≡ with_reason reason.now) }
{
    let object = Object::new(alloc)
        .with_text(alloc, "answer", "refused")?
        .with_text(alloc, "reason", reason)?;
    Ok(object.value())
}

/// A signature, and the root that it signs.
pub(crate) fn signed(alloc: Global, signature: &Sig, root: &Root) -> Result<Value, AllocError>
    ensures { IfOk result (λ v. view v ≡ answer_data (Answer.Signed signature.now root.now)) }
{
    let object = Object::new(alloc)
        .with_text(alloc, "answer", "signed")?
        .with_hex(alloc, "signature", &signature.0)?
        .with_hex(alloc, "signing_root", &root.0)?;
    Ok(object.value())
}

/// How many keys a merged file lists.
pub(crate) fn merged(alloc: Global, keys: u64) -> Result<Value, AllocError>
    ensures { IfOk result (λ v. view v ≡ answer_data (Answer.Merged keys)) }
{
    let object = Object::new(alloc)
        .with_text(alloc, "answer", "merged")?
        .with_number(alloc, "keys", keys)?;
    Ok(object.value())
}

/// An interchange file, as a text.
pub(crate) fn exported(alloc: Global, file: &File) -> Result<Value, AllocError>
    ensures { IfOk result (λ v. view v ≡ answer_data (Answer.Exported file.now)) }
{
    let file = Value::String(write_text(alloc, file)?);
    let object = Object::new(alloc)
        .with_value(alloc, "file", file)?
        .with_text(alloc, "answer", "exported")?;
    Ok(object.value())
}

/// The sizes of the journal's current file before it was compacted, and after.
pub(crate) fn compacted(alloc: Global, before: u64, after: u64) -> Result<Value, AllocError>
    ensures { IfOk result (λ v. view v ≡ answer_data (Answer.Compacted before after)) }
{
    let object = Object::new(alloc)
        .with_number(alloc, "after", after)?
        .with_text(alloc, "answer", "compacted")?
        .with_number(alloc, "before", before)?;
    Ok(object.value())
}

/// The chain that is kept, and the one that was given.
pub(crate) fn genesis_differs(alloc: Global, kept: &Root, given: &Root) -> Result<Value, AllocError>
    ensures { IfOk result (λ v. view v ≡ answer_data (Answer.GenesisDiffers kept.now given.now)) }
{
    let object = Object::new(alloc)
        .with_text(alloc, "answer", "refused")?
        .with_hex(alloc, "given", &given.0)?
        .with_hex(alloc, "kept", &kept.0)?
        .with_text(alloc, "reason", "genesis_differs")?;
    Ok(object.value())
}

/// How many keys there are, and how many more there would be.
pub(crate) fn too_many_keys(alloc: Global, have: u64, new: u64) -> Result<Value, AllocError>
    ensures { IfOk result (λ v. view v ≡ answer_data (Answer.TooManyKeys have new)) }
{
    let object = Object::new(alloc)
        .with_text(alloc, "answer", "refused")?
        .with_number(alloc, "have", have)?
        .with_number(alloc, "new", new)?
        .with_text(alloc, "reason", "too_many_keys")?;
    Ok(object.value())
}

/// The size of a journal without room, and how many more bytes were wanted.
pub(crate) fn full(alloc: Global, size: u64, wanted: u64) -> Result<Value, AllocError>
    ensures { IfOk result (λ v. view v ≡ answer_data (Answer.Full size wanted)) }
{
    let object = Object::new(alloc)
        .with_text(alloc, "answer", "refused")?
        .with_text(alloc, "reason", "full")?
        .with_number(alloc, "size", size)?
        .with_number(alloc, "wanted", wanted)?;
    Ok(object.value())
}

/// The epoch in which a watched key was told live.
pub(crate) fn live(alloc: Global, epoch: u64) -> Result<Value, AllocError>
    ensures { IfOk result (λ v. view v ≡ answer_data (Answer.Live epoch)) }
{
    let object = Object::new(alloc)
        .with_text(alloc, "answer", "refused")?
        .with_number(alloc, "epoch", epoch)?
        .with_text(alloc, "reason", "live")?;
    Ok(object.value())
}

/// The epochs of a watch that are missing, the lesser first.
pub(crate) fn watching(alloc: Global, first: u64, second: Option<u64>) -> Result<Value, AllocError>
    ensures { IfOk result (λ v. view v ≡ answer_data (Answer.Watching first second)) }
{
    let missing = missing_value(alloc, first, second)?;
    let object = Object::new(alloc)
        .with_value(alloc, "missing", missing)?
        .with_text(alloc, "answer", "refused")?
        .with_text(alloc, "reason", "watching")?;
    Ok(object.value())
}

/// The list of the missing epochs.
fn missing_value(alloc: Global, first: u64, second: Option<u64>) -> Result<Value, AllocError>
    ensures { IfOk result (λ v. view v ≡ array (missing_epochs first second)) }
{
    match second {
        None => one_epoch(alloc, first),
        Some(second) => two_epochs(alloc, first, second),
    }
}

/// The list of an epoch alone.
fn one_epoch(alloc: Global, epoch: u64) -> Result<Value, AllocError>
    ensures { IfOk result (λ v. view v ≡ array (missing_epochs epoch None)) }
{
    let epoch = epoch.to_string(alloc)?;
    json!(in alloc; [epoch.as_str()])
}

/// The list of two epochs.
fn two_epochs(alloc: Global, first: u64, second: u64) -> Result<Value, AllocError>
    ensures { IfOk result (λ v. view v ≡ array (missing_epochs first (Some second))) }
{
    let first = first.to_string(alloc)?;
    let second = second.to_string(alloc)?;
    json!(in alloc; [first.as_str(), second.as_str()])
}

/// Refused for a member.
pub(crate) fn with_name(alloc: Global, name: &str, reason: &str) -> Result<Value, AllocError>
    ensures { IfOk result (λ v. view v ≡ with_member name.now reason.now) }
{
    let object = Object::new(alloc)
        .with_text(alloc, "answer", "refused")?
        .with_text(alloc, "member", name)?
        .with_text(alloc, "reason", reason)?;
    Ok(object.value())
}

/// Why a text is no interchange file.
pub(crate) fn fault_value(alloc: Global, fault: &ReadFault) -> Result<Value, AllocError>
    ensures { IfOk result (λ v. view v ≡ fault_data fault.now) }
{
    match fault {
        ReadFault::TooLong(len) => too_long(alloc, *len),
        ReadFault::NotUtf8 => refused(alloc, "not_utf8"),
        ReadFault::Json => refused(alloc, "json"),
        ReadFault::Missing(member) => with_name(alloc, member.name(), "missing"),
        ReadFault::Version(text) => version(alloc, text.as_str()),
        ReadFault::BadNumber(member) => with_name(alloc, member.name(), "bad_number"),
        ReadFault::BadHex(member) => with_name(alloc, member.name(), "bad_hex"),
    }
}

fn too_long(alloc: Global, len: usize) -> Result<Value, AllocError>
    ensures { IfOk result (λ v. view v ≡ fault_data (ReadFault.TooLong len)) }
{
    let len = Value::String(len.to_string(alloc)?);
    let object = Object::new(alloc)
        .with_value(alloc, "len", len)?
        .with_text(alloc, "answer", "refused")?
        .with_text(alloc, "reason", "too_long")?;
    Ok(object.value())
}

/// The version of the format is another than the one that is read.
fn version(alloc: Global, text: &str) -> Result<Value, AllocError>
    ensures { IfOk result (λ v. view v ≡ fault_data (ReadFault.Version text.now)) }
{
    let object = Object::new(alloc)
        .with_text(alloc, "answer", "refused")?
        .with_text(alloc, "reason", "version")?
        .with_text(alloc, "text", text)?;
    Ok(object.value())
}

/// Why a key's past forbids a message.
pub(crate) fn verdict_value(alloc: Global, verdict: &Verdict) -> Result<Value, AllocError>
    ensures { IfOk result (λ v. view v ≡ verdict_data verdict.now) }
{
    match verdict {
        Verdict::Pass => refused(alloc, "pass"),
        Verdict::SlotBelow(floor) => below(alloc, *floor, "slot_below"),
        Verdict::DoubleBlock(kept) => block_refused(alloc, kept),
        Verdict::SourceBelow(floor) => below(alloc, *floor, "source_below"),
        Verdict::TargetBelow(floor) => below(alloc, *floor, "target_below"),
        Verdict::DoubleVote(kept) => vote_refused(alloc, kept, "double_vote"),
        Verdict::Surrounds(kept) => vote_refused(alloc, kept, "surrounds"),
        Verdict::Surrounded(kept) => vote_refused(alloc, kept, "surrounded"),
    }
}

fn below(alloc: Global, floor: u64, reason: &str) -> Result<Value, AllocError>
    ensures { IfOk result (λ v. view v ≡ with_floor floor reason.now) }
{
    let object = Object::new(alloc)
        .with_text(alloc, "answer", "refused")?
        .with_number(alloc, "floor", floor)?
        .with_text(alloc, "reason", reason)?;
    Ok(object.value())
}

fn block_refused(alloc: Global, kept: &BlockEntry) -> Result<Value, AllocError>
    ensures { IfOk result (λ v. view v ≡ with_entry (block_data kept.now) (codes "double_block")) }
{
    let entry = block_value(alloc, kept)?;
    let object = Object::new(alloc)
        .with_value(alloc, "entry", entry)?
        .with_text(alloc, "answer", "refused")?
        .with_text(alloc, "reason", "double_block")?;
    Ok(object.value())
}

fn vote_refused(alloc: Global, kept: &VoteEntry, reason: &str) -> Result<Value, AllocError>
    ensures { IfOk result (λ v. view v ≡ with_entry (vote_data kept.now) reason.now) }
{
    let entry = vote_value(alloc, kept)?;
    let object = Object::new(alloc)
        .with_value(alloc, "entry", entry)?
        .with_text(alloc, "answer", "refused")?
        .with_text(alloc, "reason", reason)?;
    Ok(object.value())
}

fn block_value(alloc: Global, kept: &BlockEntry) -> Result<Value, AllocError>
    ensures { IfOk result (λ v. view v ≡ block_data kept.now) }
{
    match kept.root {
        Some(root) => rooted_block(alloc, root, kept.slot),
        None => bare_block(alloc, kept.slot),
    }
}

/// A kept block with its signing root.
fn rooted_block(alloc: Global, root: Root, slot: u64) -> Result<Value, AllocError>
    ensures { IfOk result (λ v. view v ≡ with_root (Some root) (member (codes "slot") (string (decimal slot)) no_members)) }
{
    let object = Object::new(alloc)
        .with_hex(alloc, "signing_root", &root.0)?
        .with_number(alloc, "slot", slot)?;
    Ok(object.value())
}

/// A kept block whose signing root is not known.
fn bare_block(alloc: Global, slot: u64) -> Result<Value, AllocError>
    ensures { IfOk result (λ v. view v ≡ with_root None (member (codes "slot") (string (decimal slot)) no_members)) }
{
    let object = Object::new(alloc).with_number(alloc, "slot", slot)?;
    Ok(object.value())
}

fn vote_value(alloc: Global, kept: &VoteEntry) -> Result<Value, AllocError>
    ensures { IfOk result (λ v. view v ≡ vote_data kept.now) }
{
    match kept.root {
        Some(root) => rooted_vote(alloc, root, kept.source, kept.target),
        None => bare_vote(alloc, kept.source, kept.target),
    }
}

/// A kept vote with its signing root.
fn rooted_vote(alloc: Global, root: Root, source: u64, target: u64) -> Result<Value, AllocError>
    ensures { IfOk result (λ v. view v ≡ with_root (Some root)
        (member (codes "source_epoch") (string (decimal source)) (member (codes "target_epoch") (string (decimal target)) no_members))) }
{
    let object = Object::new(alloc)
        .with_hex(alloc, "signing_root", &root.0)?
        .with_number(alloc, "source_epoch", source)?
        .with_number(alloc, "target_epoch", target)?;
    Ok(object.value())
}

/// A kept vote whose signing root is not known.
fn bare_vote(alloc: Global, source: u64, target: u64) -> Result<Value, AllocError>
    ensures { IfOk result (λ v. view v ≡ with_root None
        (member (codes "source_epoch") (string (decimal source)) (member (codes "target_epoch") (string (decimal target)) no_members))) }
{
    let object = Object::new(alloc)
        .with_number(alloc, "source_epoch", source)?
        .with_number(alloc, "target_epoch", target)?;
    Ok(object.value())
}
