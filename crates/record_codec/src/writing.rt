//! A batch is written as bytes.
ghost use Rattle.std.specs.Prelude.{◌≡◌, ◌≤◌, ◌++◌, ◌∷◌, ◌<◌, ◌^◌, Bool, OnOk, IfOk, Ok};
ghost use Rattle.std.specs.List.{AllByRecursion};
ghost use Rattle.doppel_watch.specs.Moments.{moment_limit};
ghost use Rattle.record_codec.specs.declared.version.JournalVersion.{JournalVersion};
ghost use Rattle.record_codec.specs.Spelling.{number, flag_byte, optional_root, optional_number, optional_pair, item_bytes, spelling, IsBatch, IsBytes, RootFits, NumberFits, PairFits, MomentFits, Fits, IsOf};
ghost use Rattle.record_codec.specs.Reading.{batch_of};

use crate::item::{ACTIVATE, ACTIVATE_UNDATED, ANSWER, BLOCK, CLOSE, FLOORS, JournalItem, VOTE};
use edge_kit::Root;
use slash_defs::{BlockEntry, VoteEntry};
use std::alloc::{AllocError, Global};

// The tag of an item, and its key.
fn put_key(out: &mut Vec<u8>, tag: u8, key: &[u8; 48]) -> Result<(), AllocError>
    ensures ok { OnOk result (out.new.items ≡ out.old.items ++ tag ∷ key.now) }
    ensures fits { IsBytes 48 key.now }
{
    out.push(tag)?;
    out.extend_from_slice(key)?;
    Ok(())
}

#[tactic(auto, unfolding(crate::specs::Spelling::number))]
fn put_number(out: &mut Vec<u8>, n: u64) -> Result<(), AllocError>
    ensures ok { OnOk result (out.new.items ≡ out.old.items ++ number n) }
    ensures fits { n < 2 ^ 64 }
{
    out.extend_from_slice(&n.to_le_bytes())?;
    Ok(())
}

fn put_flag(out: &mut Vec<u8>, is_set: bool) -> Result<(), AllocError>
    ensures { OnOk result (out.new.items ≡ out.old.items ++ flag_byte is_set) }
{
    out.push(if is_set { 1 } else { 0 })?;
    Ok(())
}

fn put_root(out: &mut Vec<u8>, root: &[u8; 32]) -> Result<(), AllocError>
    ensures ok { OnOk result (out.new.items ≡ out.old.items ++ root.now) }
    ensures fits { IsBytes 32 root.now }
{
    out.extend_from_slice(root)?;
    Ok(())
}

fn put_optional_root(out: &mut Vec<u8>, root: &Option<Root>) -> Result<(), AllocError>
    ensures ok { OnOk result (out.new.items ≡ out.old.items ++ optional_root root.now) }
    ensures fits { OnOk result (RootFits root.now) }
{
    let Some(root) = root else {
        out.push(0)?;
        return Ok(());
    };
    out.push(1)?;
    put_root(out, &root.0)?;
    Ok(())
}

fn put_optional_number(out: &mut Vec<u8>, n: Option<u64>) -> Result<(), AllocError>
    ensures ok { OnOk result (out.new.items ≡ out.old.items ++ optional_number n) }
    ensures fits { OnOk result (NumberFits n) }
{
    let Some(n) = n else {
        out.push(0)?;
        return Ok(());
    };
    out.push(1)?;
    put_number(out, n)?;
    Ok(())
}

fn put_optional_pair(out: &mut Vec<u8>, pair: Option<(u64, u64)>) -> Result<(), AllocError>
    ensures ok { OnOk result (out.new.items ≡ out.old.items ++ optional_pair pair) }
    ensures fits { OnOk result (PairFits pair) }
{
    let Some((first, second)) = pair else {
        out.push(0)?;
        return Ok(());
    };
    out.push(1)?;
    put_number(out, first)?;
    put_number(out, second)?;
    Ok(())
}

fn put_block(out: &mut Vec<u8>, entry: &BlockEntry) -> Result<(), AllocError>
    ensures ok { OnOk result (out.new.items ≡ out.old.items ++ (number entry.now.slot ++ optional_root entry.now.root)) }
    ensures fits { OnOk result ((entry.now.slot < 2 ^ 64) × RootFits entry.now.root) }
{
    put_number(out, entry.slot)?;
    put_optional_root(out, &entry.root)?;
    Ok(())
}

fn put_vote(out: &mut Vec<u8>, entry: &VoteEntry) -> Result<(), AllocError>
    ensures ok { OnOk result (out.new.items ≡ out.old.items ++ (number entry.now.source ++ (number entry.now.target ++ optional_root entry.now.root))) }
    ensures fits { OnOk result ((entry.now.source < 2 ^ 64) × (entry.now.target < 2 ^ 64) × RootFits entry.now.root) }
{
    put_number(out, entry.source)?;
    put_number(out, entry.target)?;
    put_optional_root(out, &entry.root)?;
    Ok(())
}

// An answer, behind its key.
fn put_answer(out: &mut Vec<u8>, epoch: u64, live: bool, moment: u64) -> Result<(), AllocError>
    ensures ok { OnOk result (out.new.items ≡ out.old.items ++ (number epoch ++ (flag_byte live ++ number moment))) }
    ensures fits { epoch < 2 ^ 64 }
{
    put_number(out, epoch)?;
    put_flag(out, live)?;
    put_number(out, moment)?;
    Ok(())
}

fn put_item(out: &mut Vec<u8>, item: &JournalItem) -> Result<(), AllocError>
    requires { MomentFits item.now }
    ensures ok { OnOk result (out.new.items ≡ out.old.items ++ item_bytes item.now) }
    ensures fits { OnOk result (Fits item.now) }
{
    match item {
        JournalItem::Block { key, entry } => {
            put_key(out, BLOCK, &key.0)?;
            put_block(out, entry)?;
        }
        JournalItem::Vote { key, entry } => {
            put_key(out, VOTE, &key.0)?;
            put_vote(out, entry)?;
        }
        JournalItem::Floors { key, block, vote } => {
            put_key(out, FLOORS, &key.0)?;
            put_optional_number(out, *block)?;
            put_optional_pair(out, *vote)?;
        }
        JournalItem::ActivateUndated { key } => {
            put_key(out, ACTIVATE_UNDATED, &key.0)?;
        }
        JournalItem::Activate { key, epoch } => {
            put_key(out, ACTIVATE, &key.0)?;
            put_number(out, *epoch)?;
        }
        JournalItem::Answer {
            key,
            epoch,
            live,
            moment,
        } => {
            put_key(out, ANSWER, &key.0)?;
            put_answer(out, *epoch, *live, *moment)?;
        }
        JournalItem::Close { key } => {
            put_key(out, CLOSE, &key.0)?;
        }
    }
    Ok(())
}

/// The one spelling of a batch, which is one or more blocks, votes and floors, or one state of a key or one answer alone.
/// Decoding it gives the batch, in each version that has its items. The epoch of an activation and the moment of an answer
/// are to be within the limit of moments, since others can't be read. An `Err` is want of memory.
pub fn encode(alloc: Global, items: &[JournalItem]) -> Result<Vec<u8>, AllocError>
    requires batch { IsBatch items.now }
    requires moments { AllByRecursion MomentFits items.now }
    ensures spelled { IfOk result (λ bytes. bytes.items ≡ spelling items.now) }
    ensures read_back { IfOk result (λ bytes. (version : JournalVersion) → AllByRecursion (IsOf version) items.now → batch_of version bytes.items ≡ Ok items.now) }
{
    let mut out = Vec::new(alloc);
    for item in items {
        put_item(&mut out, item)?;
    }
    Ok(out)
}
