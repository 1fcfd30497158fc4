//! The keys of a file, each with what it signed.
ghost use Rattle.std.specs.Prelude.{◌≡◌, ◌<◌, length, Some, OnOk};
ghost use Rattle.serde_json.specs.Data.{object};
ghost use Rattle.json_walk.specs.Walk.{value_at, items_at, members_at};
ghost use Rattle.interchange_io.specs.Halts.{ReadsOrHalts};
ghost use Rattle.interchange_io.specs.Reading.{book_in, united_in};
ghost use Rattle.interchange_io.specs.Found.{book_from, books_at};
ghost use Rattle.interchange_io.specs.Parts.{PutsOrHalts, book_with, no_book};

use crate::entries::{read_block_list, read_vote_list};
use crate::fault::ReadFault;
use crate::gathered::Gathered;
use crate::halt::Halt;
use crate::member::Member;
use crate::refusal::refuse_items;
use crate::texts::read_pubkey;
use edge_kit::{Items, PubKey};
use json::Reader;
use json_walk::{Entered, enter_array, enter_object, skip};
use slash_defs::{BlockEntry, Book, VoteEntry};
use std::alloc::Global;

/// What was found of a key and its entries so far.
#[derive(Drop)]
struct BookParts {
    key: Result<PubKey, ReadFault>,
    blocks: Result<Items<BlockEntry>, ReadFault>,
    votes: Result<Items<VoteEntry>, ReadFault>,
}

/// Nothing was found.
fn no_book(alloc: Global) -> BookParts
    ensures { result ≡ no_book }
{
    BookParts {
        key: Err(ReadFault::Missing(Member::Pubkey)),
        blocks: Ok(Items::new(alloc)),
        votes: Ok(Items::new(alloc)),
    }
}

fn book_of_parts(parts: BookParts) -> Result<(PubKey, Book), ReadFault>
    ensures { result ≡ book_from parts.key parts.blocks parts.votes }
{
    let BookParts { key, blocks, votes } = parts;
    match key {
        Ok(key) => match blocks {
            Ok(blocks) => match votes {
                Ok(votes) => Ok((key, Book { blocks, votes })),
                Err(fault) => Err(fault),
            },
            Err(fault) => Err(fault),
        },
        Err(fault) => Err(fault),
    }
}

/// The next value, that of the member of this name.
fn read_book_member(
    alloc: Global,
    reader: &mut Reader<'_>,
    depth: usize,
    name: &str,
    parts: &mut BookParts,
) -> Result<(), Halt>
    ensures value { PutsOrHalts result parts.new (book_with parts.old name.now) (value_at depth reader.old) reader.new }
    ensures shorter { OnOk result (length reader.new < length reader.old) }
{
    match name {
        "pubkey" => parts.key = read_pubkey(reader, depth)?,
        "signed_blocks" => parts.blocks = read_block_list(alloc, reader, depth)?,
        "signed_attestations" => parts.votes = read_vote_list(alloc, reader, depth)?,
        _ => skip(reader, depth)?,
    }
    Ok(())
}

fn read_book_members(
    alloc: Global,
    reader: &mut Reader<'_>,
    depth: usize,
) -> Result<Result<(PubKey, Book), ReadFault>, Halt>
    ensures value { ReadsOrHalts result (λ ms. book_in (object ms)) (members_at depth reader.old) reader.new }
    ensures shorter { OnOk result (length reader.new < length reader.old) }
{
    let mut parts = no_book(alloc);
    'members: while let Some(name) = reader.next_key()? {
        read_book_member(alloc, reader, depth, name, &mut parts)?;
    }
    Ok(book_of_parts(parts))
}

fn read_book(
    alloc: Global,
    reader: &mut Reader<'_>,
    depth: usize,
) -> Result<Result<(PubKey, Book), ReadFault>, Halt>
    ensures value { ReadsOrHalts result book_in (value_at depth reader.old) reader.new }
    ensures shorter { OnOk result (length reader.new < length reader.old) }
{
    match enter_object(reader, depth)? {
        Entered::Inside => read_book_members(alloc, reader, depth - 1),
        Entered::Null => Ok(Err(ReadFault::Missing(Member::Data))),
        Entered::Other => Ok(Err(ReadFault::Missing(Member::Data))),
    }
}

fn read_books(
    alloc: Global,
    reader: &mut Reader<'_>,
    depth: usize,
) -> Result<Result<Items<(PubKey, Book)>, ReadFault>, Halt>
    ensures value { ReadsOrHalts result united_in (items_at depth (length reader.old) reader.old) reader.new }
    ensures shorter { OnOk result (length reader.new < length reader.old) }
{
    let mut gathered = Gathered::new(alloc);
    'items: while !reader.take_end_array() {
        match read_book(alloc, reader, depth)? {
            Ok((key, book)) => gathered.add(alloc, key, book)?,
            Err(fault) => return refuse_items(reader, depth, fault),
        }
    }
    Ok(Ok(Items::from_vec(gathered.books)))
}

/// The next value, the keys of a file.
pub(crate) fn read_data(
    alloc: Global,
    reader: &mut Reader<'_>,
    depth: usize,
) -> Result<Result<Items<(PubKey, Book)>, ReadFault>, Halt>
    ensures value { ReadsOrHalts result (λ d. books_at (Some d)) (value_at depth reader.old) reader.new }
    ensures shorter { OnOk result (length reader.new < length reader.old) }
{
    match enter_array(reader, depth)? {
        Entered::Inside => read_books(alloc, reader, depth - 1),
        Entered::Null => Ok(Err(ReadFault::Missing(Member::Data))),
        Entered::Other => Ok(Err(ReadFault::Missing(Member::Data))),
    }
}
