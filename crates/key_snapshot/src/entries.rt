//! The kept entries of a key, in batches.
ghost use Rattle.std.specs.Prelude.{◌≡◌, ◌≤◌, ◌++◌, length, map, IfOk, OnOk};
ghost use Rattle.protect_record.specs.Iterating.{entries_left};
ghost use Rattle.key_snapshot.specs.Cuts.{cut};
ghost use Rattle.key_snapshot.specs.Snapshots.{entry_items};
ghost use Rattle.key_snapshot.specs.Taking.{item_of as item_at, Takes};

use edge_kit::PubKey;
use protect_record::{Kept, Record};
use record_codec::JournalItem;
use slash_defs::Entry;
use std::alloc::{AllocError, Global};

// How many entries a batch has at most.
const LIMIT: usize = 4096;

// Adds the entries of a key to batches, as one list that is cut: the last batch has the rest.
pub fn push_entries(
    batches: &mut Vec<Vec<JournalItem>>,
    alloc: Global,
    key: PubKey,
    kept: &Record,
) -> Result<(), AllocError>
    ensures { OnOk result (map (λ v. v.items) batches.new.items ≡ map (λ v. v.items) batches.old.items ++ cut 4096 (entry_items key kept.now)) }
{
    let mut blocks = kept.blocks();
    let mut votes = kept.votes();
    'batches: loop {
        let batch = next_entries(alloc, key, &mut blocks, &mut votes)?;
        if batch.is_empty() {
            return Ok(());
        }
        batches.push(batch)?;
    }
}

// The next entries, as many as a batch has, or all that are left.
fn next_entries(
    alloc: Global,
    key: PubKey,
    blocks: &mut Kept<'_>,
    votes: &mut Kept<'_>,
) -> Result<Vec<JournalItem>, AllocError>
    ensures { IfOk result (λ batch. Takes 4096
        (map (item_at key) (entries_left blocks.old ++ entries_left votes.old))
        batch.items
        (map (item_at key) (entries_left blocks.new ++ entries_left votes.new))) }
{
    let mut batch = Vec::new(alloc);
    fill(&mut batch, key, blocks)?;
    fill(&mut batch, key, votes)?;
    Ok(batch)
}

// Adds entries until the batch is full or none is left.
fn fill(batch: &mut Vec<JournalItem>, key: PubKey, kept: &mut Kept<'_>) -> Result<(), AllocError>
    requires { length batch.old.items ≤ 4096 }
    ensures { OnOk result (Takes 4096
        (batch.old.items ++ map (item_at key) (entries_left kept.old))
        batch.new.items
        (map (item_at key) (entries_left kept.new))) }
{
    'entries: while batch.len() < LIMIT {
        let Some(entry) = kept.next() else {
            return Ok(());
        };
        batch.push(item_of(key, entry))?;
    }
    Ok(())
}

// The item of a kept entry.
fn item_of(key: PubKey, entry: Entry) -> JournalItem
    ensures { result ≡ item_at key entry }
{
    match entry {
        Entry::Block(entry) => JournalItem::Block { key, entry },
        Entry::Vote(entry) => JournalItem::Vote { key, entry },
    }
}
