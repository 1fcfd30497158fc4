//! Which entries stand for all that are older.
ghost use Rattle.std.specs.Prelude.{◌≡◌, ◌≤◌, ◌∷◌, [], ◌++◌, None, length, filter, if◌then◌else◌, IfOk, OnOk};
ghost use Rattle.record_join.specs.BooksPasts.{EachOnce};
ghost use Rattle.duty_pruning.specs.Pruning.{are_in_order, few_old, has_entries, is_after, is_old_block, is_old_vote, kept_from_old, kept_from, pruning_book, pruning_books, pruning_file};

use edge_kit::{Items, PubKey};
use slash_defs::{BlockEntry, Book, File, VoteEntry};
use std::alloc::{AllocError, Global};

/// How many slots an epoch has (consensus-specs, `SLOTS_PER_EPOCH`).
const SLOTS_PER_EPOCH: u64 = 32;

/// Of an exported file, whose entries are in file order, the file that forgets what is old: for each key of which an entry
/// is forgotten, the newest of its blocks before the epoch that is `keep` epochs before this one and all after it, and so
/// for its votes, by their targets. Where one of the two lists has no more old entries than a quarter of `keep`, or than
/// one, it is empty. A merge of it raises the key's floors to that newest entry, by which all that are older are dead. The file
/// lists its keys in their order, as an export does; of another one nothing is forgotten.
///
/// # Errors
///
/// `AllocError` where memory was wanted.
pub fn pruning_file(alloc: Global, keep: u64, epoch: u64, file: &File) -> Result<File, AllocError>
    ensures file { IfOk result (λ f. f ≡ pruning_file keep epoch file.now) }
    ensures once { IfOk result (λ f. EachOnce f.books) }
{
    let few = few_old(keep);
    let from = epoch.saturating_sub(keep);
    let books = pruning_in_order(alloc, few, from, file.books.as_slice())?;
    Ok(File {
        genesis: file.genesis,
        books: Items::from_vec(books),
    })
}

/// How many old entries of a key are left as they are, since a merge writes all that are not old once more.
fn few_old(keep: u64) -> u64
    ensures { result ≡ few_old keep }
{
    (keep / 4).max(1)
}

/// The keys of which an entry is forgotten, each with what stands for it, where each key comes after the one before it; none
/// where one does not.
fn pruning_in_order(
    alloc: Global,
    few: u64,
    from: u64,
    books: &[(PubKey, Book)],
) -> Result<Vec<(PubKey, Book)>, AllocError>
    ensures value { IfOk result (λ kept. kept.items ≡ (if are_in_order None books.now then pruning_books few from books.now else [])) }
    ensures once { IfOk result (λ kept. EachOnce kept.items) }
{
    if !are_in_order(books) {
        return Ok(Vec::new(alloc));
    }
    let kept = pruning_books(alloc, few, from, books)?;
    Ok(kept)
}

/// Whether each key comes after the one before it.
fn are_in_order(books: &[(PubKey, Book)]) -> bool
    ensures { result ≡ are_in_order None books.now }
{
    let mut before = None;
    for listed in books {
        if !is_after(before, listed.0) {
            return false;
        }
        before = Some(listed.0);
    }
    true
}

/// Whether a key comes after the one before it, if there is one. Takes no memory.
pub fn is_after(before: Option<PubKey>, key: PubKey) -> bool
    ensures { result ≡ is_after before key }
{
    match before {
        Some(before) => before.cmp(&key).is_lt(),
        None => true,
    }
}

/// The keys of which an entry is forgotten, each with what stands for it.
fn pruning_books(
    alloc: Global,
    few: u64,
    from: u64,
    books: &[(PubKey, Book)],
) -> Result<Vec<(PubKey, Book)>, AllocError>
    ensures { IfOk result (λ kept. kept.items ≡ pruning_books few from books.now) }
{
    let mut kept = Vec::new(alloc);
    for listed in books {
        push_pruning(&mut kept, alloc, few, from, listed)?;
    }
    Ok(kept)
}

/// Adds a key with what stands for its old entries, if one of them is forgotten.
fn push_pruning(
    kept: &mut Vec<(PubKey, Book)>,
    alloc: Global,
    few: u64,
    from: u64,
    listed: &(PubKey, Book),
) -> Result<(), AllocError>
    ensures { OnOk result (kept.new.items ≡ kept.old.items ++ pruning_books few from (listed.now ∷ [])) }
{
    let book = pruning_book(alloc, few, from, &listed.1)?;
    if !book.blocks.is_empty() || !book.votes.is_empty() {
        kept.push((listed.0, book))?;
    }
    Ok(())
}

/// What stands for the old entries of a book, and what comes after them.
fn pruning_book(alloc: Global, few: u64, from: u64, book: &Book) -> Result<Book, AllocError>
    ensures { IfOk result (λ kept. kept ≡ pruning_book few from book.now) }
{
    let blocks = kept_blocks(alloc, few, from, book.blocks.as_slice())?;
    let votes = kept_votes(alloc, few, from, book.votes.as_slice())?;
    Ok(Book { blocks, votes })
}

/// The newest of the old blocks and all after it, if one is forgotten.
fn kept_blocks(
    alloc: Global,
    few: u64,
    from: u64,
    blocks: &[BlockEntry],
) -> Result<Items<BlockEntry>, AllocError>
    ensures { IfOk result (λ kept. kept ≡ kept_from_old few (length (filter (is_old_block from) blocks.now)) blocks.now) }
{
    let old = old_blocks(from, blocks);
    if old as u64 <= few {
        return Ok(Items::from_vec(Vec::new(alloc)));
    }
    Ok(Items::from_vec(blocks[old - 1..].to_vec(alloc)?))
}

/// The newest of the old votes and all after it, if one is forgotten.
fn kept_votes(
    alloc: Global,
    few: u64,
    from: u64,
    votes: &[VoteEntry],
) -> Result<Items<VoteEntry>, AllocError>
    ensures { IfOk result (λ kept. kept ≡ kept_from_old few (length (filter (is_old_vote from) votes.now)) votes.now) }
{
    let old = old_votes(from, votes);
    if old as u64 <= few {
        return Ok(Items::from_vec(Vec::new(alloc)));
    }
    Ok(Items::from_vec(votes[old - 1..].to_vec(alloc)?))
}

/// How many blocks are of an epoch before this one.
fn old_blocks(from: u64, blocks: &[BlockEntry]) -> usize
    ensures count { result ≡ length (filter (is_old_block from) blocks.now) }
    ensures few { result ≤ length blocks.now }
{
    let mut old = 0;
    for entry in blocks {
        if entry.slot / SLOTS_PER_EPOCH < from {
            old += 1;
        }
    }
    old
}

/// How many votes have a target before this epoch.
fn old_votes(from: u64, votes: &[VoteEntry]) -> usize
    ensures count { result ≡ length (filter (is_old_vote from) votes.now) }
    ensures few { result ≤ length votes.now }
{
    let mut old = 0;
    for entry in votes {
        if entry.target < from {
            old += 1;
        }
    }
    old
}
