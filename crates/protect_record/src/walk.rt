//! The verdict over what a record keeps. Each look at a kept entry is a step.
ghost use Rattle.std.specs.Prelude.{◌≡◌, ◌≢◌, ◌≤◌, ◌<◌, ◌+◌, ◌-◌, ◌*◌, ◌^◌, ◌↔◌, ℕ, IsTrue, IfSome, IfNone, All, length, slice_index_or};
ghost use Rattle.slash_defs.specs.declared.entry.BlockEntry.{BlockEntry};
ghost use Rattle.slash_defs.specs.declared.entry.VoteEntry.{VoteEntry};
ghost use Rattle.slash_defs.specs.FileOrder.{block_cmp, vote_cmp};
ghost use Rattle.protect_record.specs.Order.{IsInOrder, IsFirst};
ghost use Rattle.sorted_search.specs.Sources.{AreBounds, AreGreatest, AreLeast};
ghost use Rattle.protect_record.specs.Verdicts.{Clashes, NoneClashes, IsFirstClash, ConflictsWith, IsBlockVerdict, IsVoteVerdict};

use crate::clash::Clash;
use crate::verdict::Verdict;
use edge_kit::Root;
use slash_defs::{BlockEntry, VoteEntry};
use sorted_search::{SourceBounds, Steps, look, range_of};
use std::sync::ledger::Ledger;

/// The verdict on a block, over the block floor and the kept blocks in file order.
pub fn block_verdict<L: Ledger>(
    floor: Option<u64>,
    blocks: &[BlockEntry],
    slot: u64,
    root: Root,
    steps: &mut Steps<L>,
) -> Verdict
    requires { IsInOrder block_cmp blocks.now }
    ensures verdict { IsBlockVerdict floor blocks.now slot root result }
    ensures counts { steps.old ≤ steps.new }
    ensures few { All (λ e. e.slot ≢ slot) blocks.now → 2 ^ (steps.new - steps.old) ≤ 4 * length blocks.now + 2 }
{
    if let Some(floor) = floor {
        if slot < floor {
            return Verdict::SlotBelow(floor);
        }
    }
    let range = range_of(blocks, slot, steps);
    match first_conflicting(blocks, range, slot, root, steps) {
        Some(kept) => Verdict::DoubleBlock(kept),
        None => Verdict::Pass,
    }
}

/// The verdict on a vote, over the vote floors and the kept votes in file order.
pub fn vote_verdict<L: Ledger>(
    floors: Option<(u64, u64)>,
    votes: &[VoteEntry],
    sources: &SourceBounds,
    source: u64,
    target: u64,
    root: Root,
    steps: &mut Steps<L>,
) -> Verdict
    requires in_order { IsInOrder vote_cmp votes.now }
    requires bounds { AreBounds votes.now sources.now }
    ensures verdict { IsVoteVerdict floors votes.now source target root result }
    ensures counts { steps.old ≤ steps.new }
    ensures few { result ≡ Verdict.Pass → All (λ e. e.target ≢ target) votes.now → 2 ^ (steps.new - steps.old) ≤ 8 * length votes.now + 2 }
{
    if let Some(floor) = floors {
        if source < floor.0 {
            return Verdict::SourceBelow(floor.0);
        }
        if target < floor.1 {
            return Verdict::TargetBelow(floor.1);
        }
    }
    let (start, end) = range_of(votes, target, steps);
    if let Some(kept) = first_clash(
        Clash::Double,
        votes,
        (start, end),
        source,
        target,
        root,
        steps,
    ) {
        return Verdict::DoubleVote(kept);
    }
    let greatest = sources.greatest();
    if let Some(kept) = first_surrounded(votes, greatest, start, source, target, root, steps) {
        return Verdict::Surrounds(kept);
    }
    let least = sources.least();
    if let Some(kept) = first_surrounding(votes, least, end, source, target, root, steps) {
        return Verdict::Surrounded(kept);
    }
    Verdict::Pass
}

/// The first kept block that forbids a block, where the range has all of its slot.
fn first_conflicting<L: Ledger>(
    blocks: &[BlockEntry],
    range: (usize, usize),
    slot: u64,
    root: Root,
    steps: &mut Steps<L>,
) -> Option<BlockEntry>
    requires in_order { IsInOrder block_cmp blocks.now }
    requires within { (range.0 ≤ range.1) × (range.1 ≤ length blocks.now) }
    requires before { (k : ℕ) (d : BlockEntry) → k < range.0 → (slice_index_or blocks.now k d).slot ≢ slot }
    requires behind { (k : ℕ) (d : BlockEntry) → range.1 ≤ k → k < length blocks.now → (slice_index_or blocks.now k d).slot ≢ slot }
    ensures found { IfSome result (IsFirst block_cmp (ConflictsWith slot root) blocks.now) }
    ensures none { IfNone result (All (λ kept. ¬ (ConflictsWith slot root kept)) blocks.now) }
    ensures counts { steps.old ≤ steps.new }
    ensures few { steps.new ≤ steps.old + (range.1 - range.0) }
{
    for at in range.0..range.1 {
        let kept = look(blocks, at, steps);
        if forbids(slot, root, &kept) {
            return Some(kept);
        }
    }
    None
}

/// Whether a kept block forbids a block.
fn forbids(slot: u64, root: Root, kept: &BlockEntry) -> bool
    ensures { IsTrue result ↔ ConflictsWith slot root kept.now }
{
    kept.slot == slot && kept.root != Some(root)
}

/// The first kept vote that the vote surrounds, all of which are before a place. The greatest source up to
/// there tells whether there is one, and only then the entries are looked at.
fn first_surrounded<L: Ledger>(
    votes: &[VoteEntry],
    greatest: &[u64],
    place: usize,
    source: u64,
    target: u64,
    root: Root,
    steps: &mut Steps<L>,
) -> Option<VoteEntry>
    requires in_order { IsInOrder vote_cmp votes.now }
    requires bounds { AreGreatest votes.now greatest.now }
    requires within { place ≤ length votes.now }
    requires before { (k : ℕ) (d : VoteEntry) → k < place → (slice_index_or votes.now k d).target < target }
    requires behind { (k : ℕ) (d : VoteEntry) → place ≤ k → k < length votes.now → target ≤ (slice_index_or votes.now k d).target }
    ensures found { IfSome result (IsFirstClash Clash.Surrounds source target root votes.now) }
    ensures none { IfNone result (NoneClashes Clash.Surrounds source target root votes.now) }
    ensures counts { steps.old ≤ steps.new }
    ensures few { IfNone result (steps.new ≤ steps.old + 1) }
    ensures empty { place ≡ 0 → steps.new ≡ steps.old }
{
    if place == 0 || look(greatest, place - 1, steps) <= source {
        return None;
    }
    first_clash(
        Clash::Surrounds,
        votes,
        (0, place),
        source,
        target,
        root,
        steps,
    )
}

/// The first kept vote that surrounds the vote, all of which are from a place on. The least source from there
/// on tells whether there is one, and only then the entries are looked at. The look that found the place
/// serves for its bound too.
fn first_surrounding<L: Ledger>(
    votes: &[VoteEntry],
    least: &[u64],
    place: usize,
    source: u64,
    target: u64,
    root: Root,
    steps: &mut Steps<L>,
) -> Option<VoteEntry>
    requires in_order { IsInOrder vote_cmp votes.now }
    requires bounds { AreLeast votes.now least.now }
    requires within { place ≤ length votes.now }
    requires before { (k : ℕ) (d : VoteEntry) → k < place → (slice_index_or votes.now k d).target ≤ target }
    requires behind { (k : ℕ) (d : VoteEntry) → place ≤ k → k < length votes.now → target < (slice_index_or votes.now k d).target }
    ensures found { IfSome result (IsFirstClash Clash.Surrounded source target root votes.now) }
    ensures none { IfNone result (NoneClashes Clash.Surrounded source target root votes.now) }
    ensures counts { steps.old ≤ steps.new }
    ensures few { IfNone result (steps.new ≡ steps.old) }
{
    if place == votes.len() || least[place] >= source {
        return None;
    }
    first_clash(
        Clash::Surrounded,
        votes,
        (place, votes.len()),
        source,
        target,
        root,
        steps,
    )
}

/// The first kept vote that forbids a vote so, where the range has all that do.
fn first_clash<L: Ledger>(
    kind: Clash,
    votes: &[VoteEntry],
    range: (usize, usize),
    source: u64,
    target: u64,
    root: Root,
    steps: &mut Steps<L>,
) -> Option<VoteEntry>
    requires in_order { IsInOrder vote_cmp votes.now }
    requires within { (range.0 ≤ range.1) × (range.1 ≤ length votes.now) }
    requires before { (k : ℕ) (d : VoteEntry) → k < range.0 → ¬ (Clashes kind source target root (slice_index_or votes.now k d)) }
    requires behind { (k : ℕ) (d : VoteEntry) → range.1 ≤ k → k < length votes.now → ¬ (Clashes kind source target root (slice_index_or votes.now k d)) }
    ensures found { IfSome result (IsFirstClash kind source target root votes.now) }
    ensures none { IfNone result (NoneClashes kind source target root votes.now) }
    ensures counts { steps.old ≤ steps.new }
    ensures few { steps.new ≤ steps.old + (range.1 - range.0) }
{
    for at in range.0..range.1 {
        let kept = look(votes, at, steps);
        if clashes(kind, source, target, root, &kept) {
            return Some(kept);
        }
    }
    None
}

/// Whether a kept vote forbids a vote so.
fn clashes(kind: Clash, source: u64, target: u64, root: Root, kept: &VoteEntry) -> bool
    ensures { IsTrue result ↔ Clashes kind source target root kept.now }
{
    match kind {
        Clash::Double => kept.target == target
            && (kept.source != source || kept.root != Some(root)),
        Clash::Surrounds => source < kept.source && kept.target < target,
        Clash::Surrounded => kept.source < source && target < kept.target,
    }
}
