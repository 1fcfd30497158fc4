//! The blocks and votes of a key.
ghost use Rattle.std.specs.Prelude.{◌≡◌, ◌<◌, length, Some, OnOk};
ghost use Rattle.serde_json.specs.Data.{object};
ghost use Rattle.json_walk.specs.Walk.{Reads, value_at, items_at, members_at};
ghost use Rattle.interchange_io.specs.Halts.{ReadsOrHalts};
ghost use Rattle.interchange_io.specs.Steps.{each};
ghost use Rattle.interchange_io.specs.Reading.{block_in, vote_in};
ghost use Rattle.interchange_io.specs.Found.{block_from, vote_from, blocks_at, votes_at};
ghost use Rattle.interchange_io.specs.Parts.{Puts, block_with, vote_with};

use crate::fault::ReadFault;
use crate::halt::Halt;
use crate::member::Member;
use crate::refusal::refuse_items;
use crate::texts::{read_number, read_signing_root};
use edge_kit::{Items, Root};
use json::{Invalid, Reader};
use json_walk::{Entered, enter_array, enter_object, skip};
use slash_defs::{BlockEntry, VoteEntry};
use std::alloc::Global;

/// What was found of a block so far.
#[derive(Drop)]
struct BlockParts {
    slot: Result<u64, ReadFault>,
    root: Result<Option<Root>, ReadFault>,
}

/// What was found of a vote so far.
#[derive(Drop)]
struct VoteParts {
    source: Result<u64, ReadFault>,
    target: Result<u64, ReadFault>,
    root: Result<Option<Root>, ReadFault>,
}

fn block_of_parts(parts: BlockParts) -> Result<BlockEntry, ReadFault>
    ensures { result ≡ block_from parts.slot parts.root }
{
    let BlockParts { slot, root } = parts;
    match slot {
        Ok(slot) => match root {
            Ok(root) => Ok(BlockEntry { slot, root }),
            Err(fault) => Err(fault),
        },
        Err(fault) => Err(fault),
    }
}

fn vote_of_parts(parts: VoteParts) -> Result<VoteEntry, ReadFault>
    ensures { result ≡ vote_from parts.source parts.target parts.root }
{
    let VoteParts {
        source,
        target,
        root,
    } = parts;
    match source {
        Ok(source) => match target {
            Ok(target) => match root {
                Ok(root) => Ok(VoteEntry {
                    target,
                    source,
                    root,
                }),
                Err(fault) => Err(fault),
            },
            Err(fault) => Err(fault),
        },
        Err(fault) => Err(fault),
    }
}

/// The next value, that of a block's member of this name.
fn read_block_member(
    reader: &mut Reader<'_>,
    depth: usize,
    name: &str,
    parts: &mut BlockParts,
) -> Result<(), Invalid>
    ensures value { Puts result parts.new (block_with parts.old name.now) (value_at depth reader.old) reader.new }
    ensures shorter { OnOk result (length reader.new < length reader.old) }
{
    match name {
        "slot" => parts.slot = read_number(reader, depth, Member::Slot)?,
        "signing_root" => parts.root = read_signing_root(reader, depth)?,
        _ => skip(reader, depth)?,
    }
    Ok(())
}

fn read_block_members(
    reader: &mut Reader<'_>,
    depth: usize,
) -> Result<Result<BlockEntry, ReadFault>, Invalid>
    ensures value { Reads result (λ ms. block_in (object ms)) (members_at depth reader.old) reader.new }
    ensures shorter { OnOk result (length reader.new < length reader.old) }
{
    let mut parts = BlockParts {
        slot: Err(ReadFault::Missing(Member::Slot)),
        root: Ok(None),
    };
    'members: while let Some(name) = reader.next_key()? {
        read_block_member(reader, depth, name, &mut parts)?;
    }
    Ok(block_of_parts(parts))
}

fn read_block(
    reader: &mut Reader<'_>,
    depth: usize,
) -> Result<Result<BlockEntry, ReadFault>, Invalid>
    ensures value { Reads result block_in (value_at depth reader.old) reader.new }
    ensures shorter { OnOk result (length reader.new < length reader.old) }
{
    match enter_object(reader, depth)? {
        Entered::Inside => read_block_members(reader, depth - 1),
        Entered::Null => Ok(Err(ReadFault::Missing(Member::SignedBlocks))),
        Entered::Other => Ok(Err(ReadFault::Missing(Member::SignedBlocks))),
    }
}

fn read_blocks(
    alloc: Global,
    reader: &mut Reader<'_>,
    depth: usize,
) -> Result<Result<Items<BlockEntry>, ReadFault>, Halt>
    ensures value { ReadsOrHalts result (each block_in) (items_at depth (length reader.old) reader.old) reader.new }
    ensures shorter { OnOk result (length reader.new < length reader.old) }
{
    let mut blocks = Vec::new(alloc);
    'items: while !reader.take_end_array() {
        match read_block(reader, depth)? {
            Ok(block) => blocks.push(block)?,
            Err(fault) => return refuse_items(reader, depth, fault),
        }
    }
    Ok(Ok(Items::from_vec(blocks)))
}

/// The next value, the blocks of a key.
pub(crate) fn read_block_list(
    alloc: Global,
    reader: &mut Reader<'_>,
    depth: usize,
) -> Result<Result<Items<BlockEntry>, ReadFault>, Halt>
    ensures value { ReadsOrHalts result (λ d. blocks_at (Some d)) (value_at depth reader.old) reader.new }
    ensures shorter { OnOk result (length reader.new < length reader.old) }
{
    match enter_array(reader, depth)? {
        Entered::Inside => read_blocks(alloc, reader, depth - 1),
        Entered::Null => Ok(Ok(Items::new(alloc))),
        Entered::Other => Ok(Err(ReadFault::Missing(Member::SignedBlocks))),
    }
}

/// The next value, that of a vote's member of this name.
fn read_vote_member(
    reader: &mut Reader<'_>,
    depth: usize,
    name: &str,
    parts: &mut VoteParts,
) -> Result<(), Invalid>
    ensures value { Puts result parts.new (vote_with parts.old name.now) (value_at depth reader.old) reader.new }
    ensures shorter { OnOk result (length reader.new < length reader.old) }
{
    match name {
        "source_epoch" => parts.source = read_number(reader, depth, Member::SourceEpoch)?,
        "target_epoch" => parts.target = read_number(reader, depth, Member::TargetEpoch)?,
        "signing_root" => parts.root = read_signing_root(reader, depth)?,
        _ => skip(reader, depth)?,
    }
    Ok(())
}

fn read_vote_members(
    reader: &mut Reader<'_>,
    depth: usize,
) -> Result<Result<VoteEntry, ReadFault>, Invalid>
    ensures value { Reads result (λ ms. vote_in (object ms)) (members_at depth reader.old) reader.new }
    ensures shorter { OnOk result (length reader.new < length reader.old) }
{
    let mut parts = VoteParts {
        source: Err(ReadFault::Missing(Member::SourceEpoch)),
        target: Err(ReadFault::Missing(Member::TargetEpoch)),
        root: Ok(None),
    };
    'members: while let Some(name) = reader.next_key()? {
        read_vote_member(reader, depth, name, &mut parts)?;
    }
    Ok(vote_of_parts(parts))
}

fn read_vote(reader: &mut Reader<'_>, depth: usize) -> Result<Result<VoteEntry, ReadFault>, Invalid>
    ensures value { Reads result vote_in (value_at depth reader.old) reader.new }
    ensures shorter { OnOk result (length reader.new < length reader.old) }
{
    match enter_object(reader, depth)? {
        Entered::Inside => read_vote_members(reader, depth - 1),
        Entered::Null => Ok(Err(ReadFault::Missing(Member::SignedAttestations))),
        Entered::Other => Ok(Err(ReadFault::Missing(Member::SignedAttestations))),
    }
}

fn read_votes(
    alloc: Global,
    reader: &mut Reader<'_>,
    depth: usize,
) -> Result<Result<Items<VoteEntry>, ReadFault>, Halt>
    ensures value { ReadsOrHalts result (each vote_in) (items_at depth (length reader.old) reader.old) reader.new }
    ensures shorter { OnOk result (length reader.new < length reader.old) }
{
    let mut votes = Vec::new(alloc);
    'items: while !reader.take_end_array() {
        match read_vote(reader, depth)? {
            Ok(vote) => votes.push(vote)?,
            Err(fault) => return refuse_items(reader, depth, fault),
        }
    }
    Ok(Ok(Items::from_vec(votes)))
}

/// The next value, the votes of a key.
pub(crate) fn read_vote_list(
    alloc: Global,
    reader: &mut Reader<'_>,
    depth: usize,
) -> Result<Result<Items<VoteEntry>, ReadFault>, Halt>
    ensures value { ReadsOrHalts result (λ d. votes_at (Some d)) (value_at depth reader.old) reader.new }
    ensures shorter { OnOk result (length reader.new < length reader.old) }
{
    match enter_array(reader, depth)? {
        Entered::Inside => read_votes(alloc, reader, depth - 1),
        Entered::Null => Ok(Ok(Items::new(alloc))),
        Entered::Other => Ok(Err(ReadFault::Missing(Member::SignedAttestations))),
    }
}
