//! Keys that are taken in, listed and given up.
use crate::lanes::MemLane;
use crate::words::keys_in;
use custody_format::{Import, Keystores, deleted_value, listed_value, read_import, statuses_value};
use edge_kit::push_hex;
use interchange_io::{files_list_once, read};
use json_members::json_of;
use key_custody::{
    Deletion, ImportEnd, KeyStatus, delete_keys, import_keys, key_of_keystore, list_keys,
};
use std::alloc::Global;

/// The epoch at which keys are taken in.
const NOW: u64 = 7;

/// The subject `keystore`: writes the key of a keystore.
pub fn write_keystore(alloc: Global, text: &mut String, keystore: &str) -> Option<()> {
    match key_of_keystore(alloc, keystore).ok()? {
        Some(key) => push_hex(alloc, text, &key.0).ok(),
        None => text.push_str("no key").ok(),
    }
}

/// `delete keys=K,K`: gives keys up.
pub fn delete(alloc: Global, text: &mut String, lane: &mut MemLane, rest: &str) -> Option<()> {
    let keys = keys_in(alloc, rest, "keys")?;
    let deletion = delete_keys(alloc, keys.as_slice(), &mut lane.desk, &mut lane.signer).ok()?;
    write_deletion(alloc, text, &deletion)
}

fn write_deletion(alloc: Global, text: &mut String, deletion: &Deletion) -> Option<()> {
    let value = deleted_value(alloc, deletion.statuses.as_slice(), &deletion.file).ok()?;
    writeln!(text, "{value}").ok()
}

/// `list`: the active keys.
pub fn list(alloc: Global, text: &mut String, lane: &mut MemLane) -> Option<()> {
    let keys = list_keys(alloc, &mut lane.desk).ok()?;
    let value = listed_value(alloc, keys.as_slice()).ok()?;
    writeln!(text, "{value}").ok()
}

fn write_statuses(alloc: Global, text: &mut String, statuses: &[KeyStatus]) -> Option<()> {
    let value = statuses_value(alloc, statuses).ok()?;
    writeln!(text, "{value}").ok()
}

fn write_end(alloc: Global, text: &mut String, end: &ImportEnd) -> Option<()> {
    match end {
        ImportEnd::Treated(statuses) => write_statuses(alloc, text, statuses.as_slice()),
        ImportEnd::MergeRefused(refusal) => writeln!(text, "merge refused {refusal:?}").ok(),
    }
}

/// The keystores of a JSON object.
fn keystores_of(alloc: Global, rest: &str) -> Option<Keystores> {
    let value = json_of(alloc, rest.as_bytes()).ok()??;
    let Import { file: _, keystores } = read_import(alloc, &value).ok()?.ok()?;
    Some(keystores)
}

/// `import JSON`: takes in the keys of keystores.
pub fn import(alloc: Global, text: &mut String, lane: &mut MemLane, rest: &str) -> Option<()> {
    let keystores = keystores_of(alloc, rest)?;
    let (texts, passwords) = keystores.texts();
    let (desk, signer) = (&mut lane.desk, &mut lane.signer);
    let end = import_keys(alloc, None, texts, passwords, NOW, desk, signer).ok()?;
    write_end(alloc, text, &end)
}

/// `merge FILE`: takes no key in after an interchange file.
pub fn merge(alloc: Global, text: &mut String, lane: &mut MemLane, rest: &str) -> Option<()> {
    let file = read(alloc, rest.as_bytes()).ok()?.ok()?;
    files_list_once();
    let (desk, signer) = (&mut lane.desk, &mut lane.signer);
    let end = import_keys(alloc, Some(file), &[], &[], NOW, desk, signer).ok()?;
    write_end(alloc, text, &end)
}
