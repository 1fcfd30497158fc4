//! What is old of the active keys is forgotten, a slot's share of them at its end.
ghost use Rattle.std.specs.Prelude.{◌≡◌, ℕ, ◌%◌, List, Option, Some, IfOk, OnOk};
ghost use Rattle.node_fallback.specs.Seen.{Seen};
ghost use Rattle.record_join.specs.BooksPasts.{EachOnce};
ghost use Rattle.duty_plans.specs.Seats.{Seat};
ghost use Rattle.duty_workers.specs.Shares.{kept};
ghost use Rattle.duty_turns.specs.Turns.{NextPlan, exported, exports, keys_of_turn, merges, prunes};
ghost use Rattle.duty_turns.specs.TurnSteps.{SinkSeen};
ghost use Rattle.desk_machine.specs.declared.call.DeskReply.TheVariants as reply;
ghost use Rattle.duty_work.specs.Houses.{CalledOn, IsMerged, house, short_by};

use desk_machine::{DeskCall, DeskCalls, DeskReply};
use duty_pruning::pruning_file;
use duty_turns::{Held, epoch_of};
use edge_kit::{Items, PubKey};
use slash_defs::File;
use std::alloc::{AllocError, Global};

/// In how many parts the active keys are pruned, one in each slot of an epoch.
const PARTS: u64 = 32;

/// Has what is old of those active keys forgotten whose turn it is in this slot, where not all is kept. Whatever the desk
/// replies, the turn goes on, but for want of memory.
pub(crate) fn prune_old<K: DeskCalls>(
    alloc: Global,
    keep_epochs: Option<u64>,
    slot: u64,
    held: &Held,
    desk: &mut K,
) -> Result<(), AllocError>
    requires ready { K.ready desk.old }
    ensures ready { K.ready desk.new }
    ensures called { (start : Option ℕ) (lanes : List (Seat K)) (nodes : List Seen) (out : SinkSeen) (next : NextPlan) → CalledOn K.leads start (prunes keep_epochs slot held.now.active next) next
        (house desk.old lanes nodes out) (house desk.new lanes nodes out) result }
{
    match keep_epochs {
        Some(keep) => prune_active(alloc, keep, slot, held, desk),
        None => Ok(()),
    }
}

/// Has what is old of those active keys forgotten whose turn it is in this slot.
fn prune_active<K: DeskCalls>(
    alloc: Global,
    keep: u64,
    slot: u64,
    held: &Held,
    desk: &mut K,
) -> Result<(), AllocError>
    requires ready { K.ready desk.old }
    ensures ready { K.ready desk.new }
    ensures called { (start : Option ℕ) (lanes : List (Seat K)) (nodes : List Seen) (out : SinkSeen) (next : NextPlan) → CalledOn K.leads start (prunes (Some keep) slot held.now.active next) next
        (house desk.old lanes nodes out) (house desk.new lanes nodes out) result }
{
    match &held.active {
        Some(active) => prune_keys(alloc, keep, slot, active.as_slice(), desk),
        None => Ok(()),
    }
}

/// Has what is old of those of these keys forgotten whose turn it is in this slot.
fn prune_keys<K: DeskCalls>(
    alloc: Global,
    keep: u64,
    slot: u64,
    keys: &[PubKey],
    desk: &mut K,
) -> Result<(), AllocError>
    requires ready { K.ready desk.old }
    ensures ready { K.ready desk.new }
    ensures called { (start : Option ℕ) (lanes : List (Seat K)) (nodes : List Seen) (out : SinkSeen) (next : NextPlan) → CalledOn K.leads start (prunes (Some keep) slot (Some keys.now) next) next
        (house desk.old lanes nodes out) (house desk.new lanes nodes out) result }
{
    let Ok(mine) = keys_of_turn(alloc, slot, keys) else {
        return Err(AllocError);
    };
    export_old(alloc, keep, epoch_of(slot), mine, desk)
}

/// Of the keys in their order those whose turn it is in a slot. The error is want of memory.
fn keys_of_turn(alloc: Global, slot: u64, keys: &[PubKey]) -> Result<Items<PubKey>, AllocError>
    ensures { IfOk result (λ mine. mine ≡ keys_of_turn slot keys.now) }
{
    let part = slot % PARTS;
    let mut mine = Vec::new(alloc);
    let mut at = 0;
    'keys: for key in keys {
        keep(&mut mine, *key, at == part)?;
        at = (at + 1) % PARTS;
    }
    Ok(Items::from_vec(mine))
}

/// Keeps a key, where it is one to keep. The error is want of memory.
fn keep(mine: &mut Vec<PubKey>, key: PubKey, is_mine: bool) -> Result<(), AllocError>
    ensures { OnOk result (mine.new.items ≡ kept is_mine mine.old.items key) }
{
    if is_mine {
        mine.push(key)?;
    }
    Ok(())
}

/// Has what is old of these keys forgotten, if there are any.
fn export_old<K: DeskCalls>(
    alloc: Global,
    keep: u64,
    epoch: u64,
    keys: Items<PubKey>,
    desk: &mut K,
) -> Result<(), AllocError>
    requires ready { K.ready desk.old }
    ensures ready { K.ready desk.new }
    ensures called { (start : Option ℕ) (lanes : List (Seat K)) (nodes : List Seen) (out : SinkSeen) (next : NextPlan) → CalledOn K.leads start (exports keep epoch keys next) next
        (house desk.old lanes nodes out) (house desk.new lanes nodes out) result }
{
    if keys.is_empty() {
        return Ok(());
    }
    match desk.call(DeskCall::Export { keys }) {
        DeskReply::Exported(file) => merge_old(alloc, keep, epoch, &file, desk),
        DeskReply::OutOfMemory => Err(AllocError),
        _ => unreachable!(),
    }
}

/// Has what is old in this exported file forgotten, where that drops an entry.
fn merge_old<K: DeskCalls>(
    alloc: Global,
    keep: u64,
    epoch: u64,
    file: &File,
    desk: &mut K,
) -> Result<(), AllocError>
    requires ready { K.ready desk.old }
    ensures ready { K.ready desk.new }
    ensures called { (start : Option ℕ) (lanes : List (Seat K)) (nodes : List Seen) (out : SinkSeen) (next : NextPlan) → CalledOn K.leads start (exported keep epoch (reply.Exported file.now) next) next
        (house desk.old lanes nodes out) (house desk.new lanes nodes out) result }
{
    let Ok(pruning) = pruning_file(alloc, keep, epoch, file) else {
        return Err(AllocError);
    };
    merge_file(pruning, desk)
}

/// Has a file merged that lists each key once, if it lists any.
fn merge_file<K: DeskCalls>(file: File, desk: &mut K) -> Result<(), AllocError>
    requires ready { K.ready desk.old }
    requires once { EachOnce file.books }
    ensures ready { K.ready desk.new }
    ensures called { (start : Option ℕ) (lanes : List (Seat K)) (nodes : List Seen) (out : SinkSeen) (next : NextPlan) → CalledOn K.leads start (merges file file.books next) next
        (house desk.old lanes nodes out) (house desk.new lanes nodes out) result }
{
    if file.books.is_empty() {
        return Ok(());
    }
    let reply = desk.call(DeskCall::Merge { file });
    short_by(reply)
}

/// Whether memory ran out at a merge. A disk that failed is asked for next.
fn short_by(reply: DeskReply) -> Result<(), AllocError>
    requires { IsMerged reply }
    ensures { result ≡ short_by reply }
{
    match reply {
        DeskReply::Merged { keys: _ }
        | DeskReply::GenesisDiffers { kept: _, given: _ }
        | DeskReply::TooManyKeys { have: _, new: _ }
        | DeskReply::Full { size: _, wanted: _ }
        | DeskReply::Disk => Ok(()),
        DeskReply::OutOfMemory => Err(AllocError),
        _ => unreachable!(),
    }
}
