//! The ops that name a file or keys, or tell something of a key.
ghost use Rattle.std.specs.Prelude.{codes, Err, Some};
ghost use Rattle.serde_json.specs.Find.{get};
ghost use Rattle.serde_json.specs.View.{view};
ghost use Rattle.session_format.specs.Requests.{activate_at, asked_keys, delete_at, export_at, import_at, import_of, keys_in, live_at, merge_at, prune_at};
ghost use Rattle.session_format.specs.Steps.{Gives};

use crate::member::Member;
use crate::reading::Unread;
use crate::request::{Keys, Op};
use crate::texts::{key_of, number_of, text_of, truth_of};
use custody_format::{Import, ImportFault, read_import};
use serde_json::Value;
use std::alloc::Global;

/// To merge the interchange file whose text the member `file` is.
pub(crate) fn merge_of(alloc: Global, value: &Value) -> Result<Op, Unread>
    ensures { Gives result (merge_at (view value.now)) }
{
    let Some(text) = text_of(value, "file") else {
        return Err(Unread::Member(Member::File));
    };
    match interchange_io::read(alloc, text.as_bytes())? {
        Ok(file) => Ok(Op::Merge { file }),
        Err(fault) => Ok(Op::BadFile { fault }),
    }
}

/// To make the key active.
pub(crate) fn activate_of(value: &Value) -> Result<Op, Unread>
    ensures { Gives result (activate_at (view value.now)) }
{
    let key = key_of(value)?;
    Ok(Op::Activate { key })
}

/// To write an interchange file of the keys of the member `pubkeys`, or of all that are kept.
pub(crate) fn export_of(alloc: Global, value: &Value) -> Result<Op, Unread>
    ensures { Gives result (export_at (view value.now)) }
{
    let keys = keys_of(alloc, value)?;
    Ok(Op::Export { keys })
}

/// To prune the record of the key.
pub(crate) fn prune_of(value: &Value) -> Result<Op, Unread>
    ensures { Gives result (prune_at (view value.now)) }
{
    let key = key_of(value)?;
    Ok(Op::Prune { key })
}

/// To note whether the key was seen live in the epoch of the member `of`.
pub(crate) fn live_of(value: &Value) -> Result<Op, Unread>
    ensures { Gives result (live_at (view value.now)) }
{
    let key = key_of(value)?;
    let of = number_of(value, "of", Member::Of)?;
    let is_live = truth_of(value, "is_live", Member::IsLive)?;
    Ok(Op::Live { key, of, is_live })
}

fn keys_of(alloc: Global, value: &Value) -> Result<Option<Keys>, Unread>
    ensures { Gives result (asked_keys (get (codes "pubkeys") (view value.now))) }
{
    let Some(member) = value.get("pubkeys") else {
        return Ok(None);
    };
    let keys = key_list(alloc, member)?;
    Ok(Some(keys))
}

fn key_list(alloc: Global, list: &Value) -> Result<Keys, Unread>
    ensures { Gives result (keys_in (Some (view list.now))) }
{
    match custody_format::keys_of(alloc, list)? {
        Some(keys) => Ok(keys),
        None => Err(Unread::Member(Member::Pubkeys)),
    }
}

/// To give up the keys of the member `pubkeys`.
pub(crate) fn delete_of(alloc: Global, value: &Value) -> Result<Op, Unread>
    ensures { Gives result (delete_at (view value.now)) }
{
    let Some(list) = value.get("pubkeys") else {
        return Err(Unread::Member(Member::Pubkeys));
    };
    let keys = key_list(alloc, list)?;
    Ok(Op::Delete { keys })
}

/// To take the keys of keystores in, with the interchange file whose text the member `slashing_protection` is, where
/// it is there.
pub(crate) fn import_of(alloc: Global, value: &Value) -> Result<Op, Unread>
    ensures { Gives result (import_at (view value.now)) }
{
    match read_import(alloc, value)? {
        Ok(Import { file, keystores }) => Ok(Op::Import { file, keystores }),
        Err(fault) => fault_of(fault),
    }
}

fn fault_of(fault: ImportFault) -> Result<Op, Unread>
    ensures { Gives result (import_of (Err fault)) }
{
    match fault {
        ImportFault::Keystores => Err(Unread::Member(Member::Keystores)),
        ImportFault::Passwords => Err(Unread::Member(Member::Passwords)),
        ImportFault::SlashingProtection => Err(Unread::Member(Member::SlashingProtection)),
        ImportFault::File(fault) => Ok(Op::BadFile { fault }),
    }
}
