//! Writing an interchange file.
ghost use Rattle.std.specs.Prelude.{◌≡◌, ◌<◌, ◌≤◌, ◌^◌, ◌++◌, length, map, Ok, OnOk, IfOk, string_bytes, codes, decimal};
ghost use Rattle.serde_json.specs.Data.{string, array};
ghost use Rattle.serde_json.specs.View.{items_of};
ghost use Rattle.serde_json.specs.Written.{comma_if, compact_text};
ghost use Rattle.std.specs.List.{AllByRecursion};
ghost use Rattle.hex.specs.Hex.{IsBytes};
ghost use Rattle.interchange_io.specs.Ranges.{AreBytes, RootFits, BlockFits, VoteFits, BookFits, FileFits};
ghost use Rattle.interchange_io.specs.Reading.{file_limit, file_of};
ghost use Rattle.interchange_io.specs.WrittenOrder.{canonical};
ghost use Rattle.edge_kit.specs.Texts.{hex_text};
ghost use Rattle.interchange_io.specs.Writing.{opening_text, block_data, vote_data, book_data, metadata_data, file_data, file_text};

use crate::sorted::{SortedBook, sorted_books};
use edge_kit::{PubKey, Root};
use slash_defs::{BlockEntry, File, VoteEntry};
use std::alloc::{AllocError, Global};
use std::collections::{BTreeMap, BTreeSet};

/// The one text of a file (EIP-3076, format version 5): compact JSON, its members in byte order of their
/// names, the keys in byte order and each once, the entries of a key in file order, equal ones once, both
/// lists always there, an absent root left out, hex digits in lower case and decimals without leading
/// zeros. The error is want of memory.
pub fn write_text(alloc: Global, file: &File) -> Result<String, AllocError>
    ensures text { IfOk result (λ text. string_bytes text ≡ file_text file.now) }

    // What is written reads as the file in its written order.
    ensures reads_back { IfOk result (λ text. length (string_bytes text) ≤ file_limit
        → file_of (string_bytes text) ≡ Ok (canonical file.now)) }
{
    let sorted = sorted_books(alloc, file.books.as_slice())?;
    let mut out = String::new(alloc);
    push_file(alloc, &mut out, &sorted, &file.genesis)?;
    Ok(out)
}

/// The bytes of the one text of a file, as `write_text` gives it. The error is want of memory.
pub fn write(alloc: Global, file: &File) -> Result<Vec<u8>, AllocError>
    ensures text { IfOk result (λ bytes. bytes.items ≡ file_text file.now) }

    // What is written reads as the file in its written order.
    ensures reads_back { IfOk result (λ bytes. length bytes.items ≤ file_limit
        → file_of bytes.items ≡ Ok (canonical file.now)) }
{
    Ok(write_text(alloc, file)?.into_bytes())
}

fn push_file(
    alloc: Global,
    out: &mut String,
    books: &BTreeMap<PubKey, SortedBook>,
    genesis: &Root,
) -> Result<(), AllocError>
    ensures text { OnOk result (string_bytes out.new
        ≡ string_bytes out.old ++ compact_text (file_data (record { genesis = genesis.now; books = books.now.entries }))) }
    ensures fits { OnOk result (FileFits (record { genesis = genesis.now; books = books.now.entries })) }
{
    push_text(out, "{\"data\":")?;
    push_books(alloc, out, books)?;
    push_text(out, ",\"metadata\":")?;
    push_metadata(alloc, out, genesis)?;
    push_text(out, "}")
}

fn push_metadata(alloc: Global, out: &mut String, genesis: &Root) -> Result<(), AllocError>
    ensures text { OnOk result (string_bytes out.new
        ≡ string_bytes out.old ++ compact_text (metadata_data genesis.now)) }
    ensures fits { OnOk result (AreBytes 32 genesis.now.0) }
{
    push_hex_member(alloc, out, "{\"genesis_validators_root\":", &genesis.0)?;
    push_text(out, ",\"interchange_format_version\":\"5\"}")
}

fn push_books(
    alloc: Global,
    out: &mut String,
    books: &BTreeMap<PubKey, SortedBook>,
) -> Result<(), AllocError>
    ensures text { OnOk result (string_bytes out.new
        ≡ string_bytes out.old ++ compact_text (array (items_of (map book_data books.now.entries)))) }
    ensures fits { OnOk result (AllByRecursion BookFits books.now.entries) }
{
    push_text(out, "[")?;
    let mut later = false;
    'each: for (key, book) in books {
        push_comma(out, later)?;
        push_book(alloc, out, key, book)?;
        later = true;
    }
    push_text(out, "]")
}

fn push_book(
    alloc: Global,
    out: &mut String,
    key: &PubKey,
    book: &SortedBook,
) -> Result<(), AllocError>
    ensures text { OnOk result (string_bytes out.new
        ≡ string_bytes out.old ++ compact_text (book_data (key.now, book.now))) }
    ensures fits { OnOk result (BookFits (key.now, book.now)) }
{
    push_hex_member(alloc, out, "{\"pubkey\":", &key.0)?;
    push_votes(alloc, out, book.votes())?;
    push_blocks(alloc, out, book.blocks())?;
    push_text(out, "}")
}

/// The member of a key's blocks, behind another one.
fn push_blocks(
    alloc: Global,
    out: &mut String,
    blocks: &BTreeSet<BlockEntry>,
) -> Result<(), AllocError>
    ensures text { OnOk result (string_bytes out.new
        ≡ string_bytes out.old ++ codes ",\"signed_blocks\":" ++ compact_text (array (items_of (map block_data blocks.now.keys)))) }
    ensures fits { OnOk result (AllByRecursion BlockFits blocks.now.keys) }
{
    push_text(out, ",\"signed_blocks\":[")?;
    let mut later = false;
    'each: for block in blocks {
        push_comma(out, later)?;
        push_block(alloc, out, block)?;
        later = true;
    }
    push_text(out, "]")
}

/// The member of a key's votes, behind another one.
fn push_votes(
    alloc: Global,
    out: &mut String,
    votes: &BTreeSet<VoteEntry>,
) -> Result<(), AllocError>
    ensures text { OnOk result (string_bytes out.new
        ≡ string_bytes out.old ++ codes ",\"signed_attestations\":" ++ compact_text (array (items_of (map vote_data votes.now.keys)))) }
    ensures fits { OnOk result (AllByRecursion VoteFits votes.now.keys) }
{
    push_text(out, ",\"signed_attestations\":[")?;
    let mut later = false;
    'each: for vote in votes {
        push_comma(out, later)?;
        push_vote(alloc, out, vote)?;
        later = true;
    }
    push_text(out, "]")
}

fn push_block(alloc: Global, out: &mut String, block: &BlockEntry) -> Result<(), AllocError>
    ensures text { OnOk result (string_bytes out.new
        ≡ string_bytes out.old ++ compact_text (block_data block.now)) }
    ensures fits { OnOk result (BlockFits block.now) }
{
    push_opening(alloc, out, &block.root)?;
    push_number_member(alloc, out, "\"slot\":", block.slot)?;
    push_text(out, "}")
}

fn push_vote(alloc: Global, out: &mut String, vote: &VoteEntry) -> Result<(), AllocError>
    ensures text { OnOk result (string_bytes out.new
        ≡ string_bytes out.old ++ compact_text (vote_data vote.now)) }
    ensures fits { OnOk result (VoteFits vote.now) }
{
    push_opening(alloc, out, &vote.root)?;
    push_number_member(alloc, out, "\"source_epoch\":", vote.source)?;
    push_number_member(alloc, out, ",\"target_epoch\":", vote.target)?;
    push_text(out, "}")
}

/// A block or a vote up to its first number.
fn push_opening(alloc: Global, out: &mut String, root: &Option<Root>) -> Result<(), AllocError>
    ensures text { OnOk result (string_bytes out.new ≡ string_bytes out.old ++ opening_text root.now) }
    ensures fits { OnOk result (RootFits root.now) }
{
    let Some(root) = root else {
        return push_text(out, "{");
    };
    push_hex_member(alloc, out, "{\"signing_root\":", &root.0)?;
    push_text(out, ",")
}

/// Bytes in hex behind their member's name.
fn push_hex_member<const N: usize>(
    alloc: Global,
    out: &mut String,
    name: &str,
    bytes: &[u8; N],
) -> Result<(), AllocError>
    ensures text { OnOk result (string_bytes out.new
        ≡ string_bytes out.old ++ (name.now ++ compact_text (string (hex_text bytes.now)))) }
    ensures fits { OnOk result (AreBytes N bytes.now) }
{
    push_text(out, name)?;
    push_hex(alloc, out, bytes)
}

fn push_hex<const N: usize>(
    alloc: Global,
    out: &mut String,
    bytes: &[u8; N],
) -> Result<(), AllocError>
    ensures text { OnOk result (string_bytes out.new
        ≡ string_bytes out.old ++ compact_text (string (hex_text bytes.now))) }
    ensures fits { OnOk result (AreBytes N bytes.now) }
{
    push_digits(alloc, out, bytes.as_slice())
}

/// A number behind its member's name.
fn push_number_member(
    alloc: Global,
    out: &mut String,
    name: &str,
    number: u64,
) -> Result<(), AllocError>
    ensures text { OnOk result (string_bytes out.new
        ≡ string_bytes out.old ++ (name.now ++ compact_text (string (decimal number)))) }
    ensures fits { OnOk result (number < 2 ^ 64) }
{
    push_text(out, name)?;
    push_number(alloc, out, number)
}

fn push_digits(alloc: Global, out: &mut String, bytes: &[u8]) -> Result<(), AllocError>
    ensures text { OnOk result (string_bytes out.new
        ≡ string_bytes out.old ++ compact_text (string (hex_text bytes.now))) }
    ensures fits { OnOk result (IsBytes bytes.now) }
{
    let digits = hex::encode(alloc, bytes)?;
    push_text(out, "\"0x")?;
    push_text(out, digits.as_str())?;
    push_text(out, "\"")
}

fn push_number(alloc: Global, out: &mut String, number: u64) -> Result<(), AllocError>
    ensures { OnOk result (string_bytes out.new
        ≡ string_bytes out.old ++ compact_text (string (decimal number))) }
{
    let digits = number.to_string(alloc)?;
    push_text(out, "\"")?;
    push_text(out, digits.as_str())?;
    push_text(out, "\"")
}

/// A comma, where an element stands before.
fn push_comma(out: &mut String, later: bool) -> Result<(), AllocError>
    ensures { OnOk result (string_bytes out.new ≡ string_bytes out.old ++ comma_if later) }
{
    if later {
        return push_text(out, ",");
    }
    Ok(())
}

fn push_text(out: &mut String, text: &str) -> Result<(), AllocError>
    ensures { OnOk result (string_bytes out.new ≡ string_bytes out.old ++ text.now) }
{
    out.push_str(text)
}
