//! One line of what a journal has of a key.
ghost use Rattle.std.specs.Prelude.{◌≡◌, ◌++◌, length, OnOk, IfOk, decimal, string_bytes};
ghost use Rattle.journal_commands.specs.Showing.{key_text, state_word, floor_text, source_floor, target_floor, counts_text, floors_text};

use edge_kit::{PubKey, push_hex};
use protect_record::{Floors, Record};
use record_replay::KeyState;
use std::alloc::{AllocError, Global};

/// One line of what a journal has of a key: `KEY STATE blocks N votes M floor_slot A floor_source B
/// floor_target C` and a newline. KEY is `0x` and 96 lower-case hex digits, STATE one of `known`, `active`,
/// `closing` and `closed`; the numbers are decimal, and `-` stands for a floor that is not there.
///
/// # Errors
///
/// `AllocError` where memory was wanted.
pub fn key_line(
    alloc: Global,
    key: &PubKey,
    state: KeyState,
    kept: &Record,
) -> Result<String, AllocError>
    ensures { IfOk result (λ text. string_bytes text ≡ key_text key.now state kept.now) }
{
    let mut out = String::new(alloc);
    push_hex(alloc, &mut out, &key.0)?;
    push_text(&mut out, " ")?;
    push_text(&mut out, state_name(state))?;
    push_counts(alloc, &mut out, kept)?;
    push_floors(alloc, &mut out, kept.floors())?;
    push_text(&mut out, "\n")?;
    Ok(out)
}

/// The word of a state.
fn state_name(state: KeyState) -> &'static str
    ensures { result.now ≡ state_word state }
{
    match state {
        KeyState::Known => "known",
        KeyState::Active => "active",
        KeyState::Closing => "closing",
        KeyState::Closed => "closed",
    }
}

/// How many blocks and votes are kept.
fn push_counts(alloc: Global, out: &mut String, kept: &Record) -> Result<(), AllocError>
    ensures { OnOk result (string_bytes out.new ≡ string_bytes out.old ++ counts_text kept.now) }
{
    push_number(alloc, out, " blocks ", count_blocks(kept))?;
    push_number(alloc, out, " votes ", count_votes(kept))
}

/// How many blocks are kept.
fn count_blocks(kept: &Record) -> u64
    ensures { result ≡ length kept.now.blocks }
{
    let blocks = kept.blocks();
    blocks.count() as u64
}

/// How many votes are kept.
fn count_votes(kept: &Record) -> u64
    ensures { result ≡ length kept.now.votes }
{
    let votes = kept.votes();
    votes.count() as u64
}

/// The floors by their names.
fn push_floors(alloc: Global, out: &mut String, floors: Floors) -> Result<(), AllocError>
    ensures { OnOk result (string_bytes out.new ≡ string_bytes out.old ++ floors_text floors) }
{
    push_floor(alloc, out, " floor_slot ", floors.block)?;
    push_floor(alloc, out, " floor_source ", source_of(floors.vote))?;
    push_floor(alloc, out, " floor_target ", target_of(floors.vote))
}

/// The source floor of a source and a target.
fn source_of(floors: Option<(u64, u64)>) -> Option<u64>
    ensures { result ≡ source_floor floors }
{
    let (source, _) = floors?;
    Some(source)
}

/// The target floor of a source and a target.
fn target_of(floors: Option<(u64, u64)>) -> Option<u64>
    ensures { result ≡ target_floor floors }
{
    let (_, target) = floors?;
    Some(target)
}

/// A name and a floor, or `-`.
fn push_floor(
    alloc: Global,
    out: &mut String,
    name: &str,
    floor: Option<u64>,
) -> Result<(), AllocError>
    ensures { OnOk result (string_bytes out.new ≡ string_bytes out.old ++ (name.now ++ floor_text floor)) }
{
    match floor {
        Some(number) => push_number(alloc, out, name, number),
        None => push_two(out, name, "-"),
    }
}

/// A name and a number in decimal.
fn push_number(alloc: Global, out: &mut String, name: &str, number: u64) -> Result<(), AllocError>
    ensures { OnOk result (string_bytes out.new ≡ string_bytes out.old ++ (name.now ++ decimal number)) }
{
    let digits = number.to_string(alloc)?;
    push_two(out, name, digits.as_str())
}

/// Two texts, one after the other.
fn push_two(out: &mut String, first: &str, second: &str) -> Result<(), AllocError>
    ensures { OnOk result (string_bytes out.new ≡ string_bytes out.old ++ (first.now ++ second.now)) }
{
    push_text(out, first)?;
    push_text(out, second)
}

/// A text.
fn push_text(out: &mut String, text: &str) -> Result<(), AllocError>
    ensures { OnOk result (string_bytes out.new ≡ string_bytes out.old ++ text.now) }
{
    out.push_str(text)
}
