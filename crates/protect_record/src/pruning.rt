//! The blocks of the book that prunes a record.
ghost use Rattle.std.specs.Prelude.{◌≡◌, ◌==◌, ◌++◌, ◌∷◌, [], IfOk, OnOk, filter};
ghost use Rattle.std.specs.Option.{option_to_list};
ghost use Rattle.protect_record.specs.Exporting.{blocks_at};

use slash_defs::{BlockEntry, VoteEntry};
use std::alloc::{AllocError, Global};

/// The kept blocks at a slot, none without one.
pub fn blocks_to_prune(
    alloc: Global,
    slot: Option<u64>,
    blocks: &[BlockEntry],
) -> Result<Vec<BlockEntry>, AllocError>
    ensures { IfOk result (λ list. list.items ≡ blocks_at slot blocks.now) }
{
    match slot {
        Some(slot) => blocks_of_slot(alloc, slot, blocks),
        None => Ok(Vec::new(alloc)),
    }
}

fn blocks_of_slot(
    alloc: Global,
    slot: u64,
    blocks: &[BlockEntry],
) -> Result<Vec<BlockEntry>, AllocError>
    ensures { IfOk result (λ list. list.items ≡ filter (λ e. e.slot == slot) blocks.now) }
{
    let mut list = Vec::new(alloc);
    'blocks: for entry in blocks {
        take_at(&mut list, slot, *entry)?;
    }
    Ok(list)
}

/// Takes a block in where it is of the slot.
fn take_at(list: &mut Vec<BlockEntry>, slot: u64, entry: BlockEntry) -> Result<(), AllocError>
    ensures { OnOk result (list.new.items ≡ list.old.items ++ filter (λ e. e.slot == slot) (entry ∷ [])) }
{
    if entry.slot != slot {
        return Ok(());
    }
    list.push(entry)?;
    Ok(())
}

/// The votes of the book: the one vote, if there is one.
pub fn votes_of(alloc: Global, vote: Option<VoteEntry>) -> Result<Vec<VoteEntry>, AllocError>
    ensures { IfOk result (λ list. list.items ≡ option_to_list vote) }
{
    let mut list = Vec::new(alloc);
    if let Some(entry) = vote {
        list.push(entry)?;
    }
    Ok(list)
}
