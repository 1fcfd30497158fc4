//! Bit lists, and the texts that write them: hex of their bytes, with a delimiter bit behind the last.
ghost use Rattle.std.specs.Prelude.{◌≡◌, ◌++◌, Some, None, if◌then◌else◌, IfOk, OnOk, option_map};
ghost use Rattle.std.specs.List.{flat_map};
ghost use Rattle.phase0_types.specs.Names.{bit_list_names};
ghost use Rattle.phase0_types.specs.Reading.{before_last_set, bits_of, bits_of_bytes, bits_of_text, ends_in_a_bit};
ghost use Rattle.phase0_types.specs.Shapes.{bit_list};

use crate::fault::{ReadFault, bad_hex, too_long};
use crate::leaves::read_text;
use crate::list::BoundedList;
use crate::member::Member;
use crate::shaped::{ReadResult, Shaped};
use edge_kit::{Root, hex_text};
use hex::FromHexError;
use serde_json::Value;
use ssz_roots::{bits_root, mix_length, pack_bits};
use std::alloc::{AllocError, Global};

#[tactic(auto, unfolding(crate::specs::Roots::root_of, crate::specs::Reading::read_at, crate::specs::Writing::write, crate::specs::Fitting::Fits))]
impl<const LIMIT: usize> Shaped for BoundedList<bool, LIMIT> {
    ghost shape = { bit_list LIMIT };

    ghost value = { λ bits. bits };

    fn root(&self) -> Root {
        let bits = self.as_slice();
        let root = bits_root(bits, LIMIT as u64).unwrap();
        mix_length(root, bits.len() as u64)
    }

    fn read_at(alloc: Global, place: Option<Member>, json: &Value) -> ReadResult<Self> {
        let text = match read_text(place, json) {
            Ok(text) => text,
            Err(fault) => return Ok(Err(fault)),
        };
        let Some(bits) = read_bits(alloc, text)? else {
            return Ok(Err(bad_hex(place)));
        };
        match BoundedList::try_new(bits) {
            Ok(list) => Ok(Ok(list)),
            Err(_) => Ok(Err(too_long(place))),
        }
    }

    fn to_json(&self, alloc: Global) -> Result<Value, AllocError> {
        let mut bits = Vec::from_slice(alloc, self.as_slice())?;
        bits.push(true)?;
        let bytes = pack_bits(alloc, bits.as_slice())?;
        Ok(Value::String(hex_text(alloc, bytes.as_slice())?))
    }

    ghost names = { bit_list_names LIMIT };
}

/// The bits that a text writes, if it is hex of bytes and the last holds the delimiter.
#[tactic(auto, unfolding(crate::specs::Reading::bits_of_text))]
fn read_bits(alloc: Global, text: &str) -> Result<Option<Vec<bool>>, AllocError>
    ensures { IfOk result (λ bits. option_map (λ list. list.items) bits ≡ bits_of_text text.now) }
{
    let text = text.as_bytes();
    if !text.starts_with(b"0x") {
        return Ok(None);
    }
    match hex::decode(alloc, &text[2..]) {
        Ok(bytes) => bits_before_delimiter(alloc, bytes.as_slice()),
        Err(FromHexError::OutOfMemory) => Err(AllocError),
        Err(_) => Ok(None),
    }
}

/// The bits before the delimiter, which is the last bit that is set.
fn bits_before_delimiter(alloc: Global, bytes: &[u8]) -> Result<Option<Vec<bool>>, AllocError>
    ensures { IfOk result (λ bits. option_map (λ list. list.items) bits ≡ bits_of_bytes bytes.now) }
{
    if !ends_in_a_bit(bytes) {
        return Ok(None);
    }
    let mut bits = all_bits(alloc, bytes)?;
    if cut_at_last_set(&mut bits) {
        Ok(Some(bits))
    } else {
        Ok(None)
    }
}

/// Whether the last byte has a bit that is set.
fn ends_in_a_bit(bytes: &[u8]) -> bool
    ensures { result ≡ ends_in_a_bit bytes.now }
{
    match bytes.last() {
        Some(byte) => *byte > 0,
        None => false,
    }
}

/// Cuts the list at the last bit that is set. False where none is.
fn cut_at_last_set(bits: &mut Vec<bool>) -> bool
    ensures { before_last_set bits.old.items ≡ (if result then Some bits.new.items else None) }
{
    'set: while let Some(bit) = bits.pop() {
        if bit {
            return true;
        }
    }
    false
}

/// The bits of bytes, the lowest of each first.
fn all_bits(alloc: Global, bytes: &[u8]) -> Result<Vec<bool>, AllocError>
    ensures { IfOk result (λ bits. bits.items ≡ flat_map (bits_of 8) bytes.now) }
{
    let mut bits = Vec::new(alloc);
    'bytes: for byte in bytes {
        push_bits(&mut bits, *byte)?;
    }
    Ok(bits)
}

/// Adds the eight bits of a byte, the lowest first.
fn push_bits(bits: &mut Vec<bool>, byte: u8) -> Result<(), AllocError>
    ensures { OnOk result (bits.new.items ≡ bits.old.items ++ bits_of 8 byte) }
{
    let mut rest = byte;
    'bits: for _place in 0..8u8 {
        bits.push(rest % 2 == 1)?;
        rest /= 2;
    }
    Ok(())
}
