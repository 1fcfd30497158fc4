//! What a record exports, and the vote that prunes it.
ghost use Rattle.std.specs.Prelude.{◌≡◌, ◌==◌, ◌&&◌, IfOk, nat_le, count_by, find, option_copied};
ghost use Rattle.std.specs.List.{list_all, list_any};
ghost use Rattle.std.specs.Option.{option_to_list};
ghost use Rattle.protect_record.specs.Exporting.{greatest_epochs, is_regular_at, vote_without_root, exported_votes, root_from, root_of_only, pruned_vote};

use crate::bounds::{greater_of_pairs, most_epochs};
use edge_kit::Root;
use slash_defs::VoteEntry;
use std::alloc::{AllocError, Global};

/// The greatest source and the greatest target of the kept votes, the floors counted.
pub fn greatest_of(floors: Option<(u64, u64)>, votes: &[VoteEntry]) -> Option<(u64, u64)>
    ensures { result ≡ greatest_epochs floors votes.now }
{
    greater_of_pairs(floors, most_epochs(votes))
}

/// The votes that are exported.
pub fn votes_to_export(
    alloc: Global,
    floors: Option<(u64, u64)>,
    votes: &[VoteEntry],
) -> Result<Vec<VoteEntry>, AllocError>
    ensures { IfOk result (λ list. list.items ≡ exported_votes floors votes.now) }
{
    let Some(floor) = floors else {
        return Vec::from_slice(alloc, votes);
    };
    if is_regular(floor, votes) {
        return Vec::from_slice(alloc, votes);
    }
    one_vote(alloc, greatest_of(floors, votes))
}

/// The vote that prunes a record, if there are votes or vote floors.
pub fn vote_to_prune(greatest: Option<(u64, u64)>, votes: &[VoteEntry]) -> Option<VoteEntry>
    ensures { pruned_vote greatest votes.now ≡ option_to_list result }
{
    let (source, target) = greatest?;
    Some(VoteEntry {
        target,
        source,
        root: only_root(source, target, votes),
    })
}

/// One vote without a root, if there are epochs for one.
fn one_vote(alloc: Global, greatest: Option<(u64, u64)>) -> Result<Vec<VoteEntry>, AllocError>
    ensures { IfOk result (λ list. list.items ≡ vote_without_root greatest) }
{
    let mut list = Vec::new(alloc);
    if let Some((source, target)) = greatest {
        list.push(VoteEntry {
            target,
            source,
            root: None,
        })?;
    }
    Ok(list)
}

/// Whether each kept vote is at or above both floors, and the kept votes attain both.
fn is_regular(floor: (u64, u64), votes: &[VoteEntry]) -> bool
    ensures { result ≡ is_regular_at floor votes.now }
{
    are_over(floor, votes) && has_source(floor.0, votes) && has_target(floor.1, votes)
}

/// Whether each kept vote is at or above both floors.
fn are_over(floor: (u64, u64), votes: &[VoteEntry]) -> bool
    ensures { result ≡ list_all (λ e. nat_le floor.0 e.source && nat_le floor.1 e.target) votes.now }
{
    votes
        .iter()
        .all(|e| floor.0 <= e.source && floor.1 <= e.target)
}

/// Whether a kept vote has the source.
fn has_source(source: u64, votes: &[VoteEntry]) -> bool
    ensures { result ≡ list_any (λ e. e.source == source) votes.now }
{
    votes.iter().any(|e| e.source == source)
}

/// Whether a kept vote has the target.
fn has_target(target: u64, votes: &[VoteEntry]) -> bool
    ensures { result ≡ list_any (λ e. e.target == target) votes.now }
{
    votes.iter().any(|e| e.target == target)
}

/// The root of the one kept vote of the target, where it has the source.
fn only_root(source: u64, target: u64, votes: &[VoteEntry]) -> Option<Root>
    ensures { result ≡ root_of_only (source, target) votes.now }
{
    if count_at(target, votes) != 1 {
        return None;
    }
    root_from(source, first_at(target, votes).copied())
}

/// How many kept votes have the target.
fn count_at(target: u64, votes: &[VoteEntry]) -> usize
    ensures { result ≡ count_by (λ e. e.target == target) votes.now }
{
    votes.iter().filter(|e| e.target == target).count()
}

/// The first kept vote of the target.
fn first_at(target: u64, votes: &[VoteEntry]) -> Option<&VoteEntry>
    ensures { option_copied result ≡ find (λ e. e.target == target) votes.now }
{
    votes.iter().find(|e| e.target == target)
}

/// The root of a vote that has the source.
fn root_from(source: u64, entry: Option<VoteEntry>) -> Option<Root>
    ensures { result ≡ root_from source entry }
{
    match entry {
        Some(only) => {
            if only.source == source {
                return only.root;
            }
            None
        }
        None => None,
    }
}
