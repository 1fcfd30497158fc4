//! The rows of answers.
ghost use Rattle.std.specs.Prelude.{◌≡◌, IfOk, option_map};
ghost use Rattle.std.specs.declared.option.Option.{Option};
ghost use Rattle.serde_json.specs.Data.{Data};
ghost use Rattle.serde_json.specs.View.{items_view, view};
ghost use Rattle.beacon_node.specs.Readings as reading;

use edge_kit::{Items, PubKey};
use json_members::{bytes_in, flag_in, items_in, number_in};
use node_calls::{AttesterRow, LivenessRow, ProposerRow, ValidatorRow};
use serde_json::Value;
use std::alloc::{AllocError, Global};

/// How many rows an answer about duties has at most.
const MAX_DUTY_ROWS: usize = 65_536;

/// A row of an answer's list.
pub(crate) trait Row: Sized + Drop {
    ghost reading: { Data → Option Self };

    /// The row that an element writes, if it writes one.
    fn read(value: &Value) -> Option<Self>
        ensures { result ≡ reading (view value.now) };
}

impl Row for ValidatorRow {
    ghost reading = { reading.validator_row };

    fn read(value: &Value) -> Option<Self> {
        Some(ValidatorRow {
            index: number_in(value, "index")?,
            pubkey: key_in(value.get("validator")?)?,
        })
    }
}

impl Row for ProposerRow {
    ghost reading = { reading.proposer_row };

    fn read(value: &Value) -> Option<Self> {
        Some(ProposerRow {
            pubkey: key_in(value)?,
            validator_index: number_in(value, "validator_index")?,
            slot: number_in(value, "slot")?,
        })
    }
}

impl Row for AttesterRow {
    ghost reading = { reading.attester_row };

    fn read(value: &Value) -> Option<Self> {
        Some(AttesterRow {
            pubkey: key_in(value)?,
            validator_index: number_in(value, "validator_index")?,
            committee_index: number_in(value, "committee_index")?,
            committee_length: number_in(value, "committee_length")?,
            committees_at_slot: number_in(value, "committees_at_slot")?,
            validator_committee_index: number_in(value, "validator_committee_index")?,
            slot: number_in(value, "slot")?,
        })
    }
}

impl Row for LivenessRow {
    ghost reading = { reading.liveness_row };

    fn read(value: &Value) -> Option<Self> {
        Some(LivenessRow {
            index: number_in(value, "index")?,
            is_live: flag_in(value, "is_live")?,
        })
    }
}

/// The key that the member `pubkey` writes.
fn key_in(value: &Value) -> Option<PubKey>
    ensures { result ≡ reading.key_in (view value.now) }
{
    bytes_in::<48>(value, "pubkey").map(PubKey)
}

/// The rows of the list `data`, if each of its elements writes one. The error is want of memory.
pub(crate) fn rows_in<R: Row>(alloc: Global, value: &Value) -> Result<Option<Items<R>>, AllocError>
    ensures { IfOk result (λ found. found ≡ reading.rows_in R.reading (view value.now)) }
{
    let Some(items) = items_in(value, "data") else {
        return Ok(None);
    };
    each_row(alloc, items)
}

/// The rows of the list `data` of an answer about duties, if each of its elements writes one and they are no more than such an
/// answer may have; of a longer list none is read. The error is want of memory.
pub(crate) fn duty_rows_in<R: Row>(
    alloc: Global,
    value: &Value,
) -> Result<Option<Items<R>>, AllocError>
    ensures { IfOk result (λ found. found ≡ reading.duty_rows_in R.reading (view value.now)) }
{
    let Some(items) = items_in(value, "data") else {
        return Ok(None);
    };
    if items.len() > MAX_DUTY_ROWS {
        return Ok(None);
    }
    each_row(alloc, items)
}

/// The rows that the elements write, if each writes one. Memory is taken only for rows that were read. The error is want of
/// memory.
fn each_row<R: Row>(alloc: Global, items: &[Value]) -> Result<Option<Items<R>>, AllocError>
    ensures { IfOk result (λ found. found ≡ reading.each_row R.reading (items_view items.now)) }
{
    let mut rows = Vec::new(alloc);
    'items: for item in items {
        let Some(row) = R::read(item) else {
            return Ok(None);
        };
        rows.push(row)?;
    }
    Ok(Some(Items::from_vec(rows)))
}
