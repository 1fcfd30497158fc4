//! Which kept entries still count.
ghost use Rattle.std.specs.Prelude.{◌≡◌, ◌+◌, ◌*◌, ◌≤◌, ◌↔◌, IsTrue, All, not, filter, length, vec_len, vec_capacity};
ghost use Rattle.std.specs.Bool.{OnFalse};
ghost use Rattle.slash_defs.specs.FileOrder.{block_cmp, vote_cmp};
ghost use Rattle.protect_record.specs.Order.{IsInOrder};
ghost use Rattle.protect_record.specs.Floors.{IsDeadBlock, IsDeadVote, is_dead_block, is_dead_vote};
ghost use Rattle.protect_record.specs.Gathering.{HasDropped, HasGathered};

use crate::floors::Floors;
use crate::sorted::{sort_once, unite};
use slash_defs::{BlockEntry, VoteEntry};

/// Unites kept blocks with more of them, in the room that was reserved, and drops those that are dead.
pub fn gather_blocks(list: &mut Vec<BlockEntry>, more: &[BlockEntry], floors: Floors)
    requires in_order { IsInOrder block_cmp list.old.items }
    requires room { vec_len list.old + 2 * length more.now ≤ vec_capacity list.old }
    ensures gathered { HasGathered block_cmp (IsDeadBlock floors) list.old.items more.now list.new.items }
    ensures len { vec_len list.new ≤ vec_len list.old + length more.now }
{
    unite(list, more);
    if !has_dead_block(list.as_slice(), floors) {
        return;
    }
    drop_dead_blocks(list, floors);
}

/// Unites kept votes with more of them, in the room that was reserved, and drops those that are dead.
pub fn gather_votes(list: &mut Vec<VoteEntry>, more: &[VoteEntry], floors: Floors)
    requires in_order { IsInOrder vote_cmp list.old.items }
    requires room { vec_len list.old + 2 * length more.now ≤ vec_capacity list.old }
    ensures gathered { HasGathered vote_cmp (IsDeadVote floors) list.old.items more.now list.new.items }
    ensures len { vec_len list.new ≤ vec_len list.old + length more.now }
{
    unite(list, more);
    if !has_dead_vote(list.as_slice(), floors) {
        return;
    }
    drop_dead_votes(list, floors);
}

/// Puts blocks in file order, each once, and drops those that are dead.
pub fn keep_live_blocks(list: &mut Vec<BlockEntry>, floors: Floors)
    ensures { HasDropped block_cmp (IsDeadBlock floors) list.old.items list.new.items }
{
    sort_once(list);
    drop_dead_blocks(list, floors);
}

/// Puts votes in file order, each once, and drops those that are dead.
pub fn keep_live_votes(list: &mut Vec<VoteEntry>, floors: Floors)
    ensures { HasDropped vote_cmp (IsDeadVote floors) list.old.items list.new.items }
{
    sort_once(list);
    drop_dead_votes(list, floors);
}

/// Whether a block is below the floor. The first in order is the lowest, so no other is looked at.
fn has_dead_block(blocks: &[BlockEntry], floors: Floors) -> bool
    requires { IsInOrder block_cmp blocks.now }
    ensures { OnFalse result (All (λ e. ¬ (IsDeadBlock floors e)) blocks.now) }
{
    match blocks.first() {
        Some(lowest) => is_dead_block(floors, lowest),
        None => false,
    }
}

/// Whether a vote is dead. From the target floor on none is, so no more are looked at.
fn has_dead_vote(votes: &[VoteEntry], floors: Floors) -> bool
    requires { IsInOrder vote_cmp votes.now }
    ensures { OnFalse result (All (λ e. ¬ (IsDeadVote floors e)) votes.now) }
{
    let Some((_, floor)) = floors.vote else {
        return false;
    };
    for entry in votes {
        if entry.target >= floor {
            return false;
        }
        if is_dead_vote(floors, entry) {
            return true;
        }
    }
    false
}

/// Drops the blocks that are dead.
fn drop_dead_blocks(list: &mut Vec<BlockEntry>, floors: Floors)
    ensures items { list.new.items ≡ filter (λ e. not (is_dead_block floors e)) list.old.items }
    ensures len { vec_len list.new ≤ vec_len list.old }
{
    list.retain(|entry| !is_dead_block(floors, entry));
}

/// Drops the votes that are dead.
fn drop_dead_votes(list: &mut Vec<VoteEntry>, floors: Floors)
    ensures items { list.new.items ≡ filter (λ e. not (is_dead_vote floors e)) list.old.items }
    ensures len { vec_len list.new ≤ vec_len list.old }
{
    list.retain(|entry| !is_dead_vote(floors, entry));
}

/// Whether a block is below the floor.
fn is_dead_block(floors: Floors, entry: &BlockEntry) -> bool
    ensures value { result ≡ is_dead_block floors entry.now }
    ensures fact { IsTrue result ↔ IsDeadBlock floors entry.now }
{
    match floors.block {
        Some(floor) => entry.slot < floor,
        None => false,
    }
}

/// Whether a vote is below the target floor and its source at most the source floor.
fn is_dead_vote(floors: Floors, entry: &VoteEntry) -> bool
    ensures value { result ≡ is_dead_vote floors entry.now }
    ensures fact { IsTrue result ↔ IsDeadVote floors entry.now }
{
    match floors.vote {
        Some((source, target)) => entry.target < target && entry.source <= source,
        None => false,
    }
}
