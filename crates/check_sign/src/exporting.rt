//! What is handed over of the kept keys.
ghost use Rattle.std.specs.Prelude.{◌≡◌, ◌≤◌, ◌++◌, ◌∷◌, [], List, map, IfOk, OnOk};
ghost use Rattle.std.specs.Map.{keys_of};
ghost use Rattle.edge_kit.specs.declared.bytes.PubKey.{PubKey};
ghost use Rattle.protect_record.specs.Pasts.{Past};
ghost use Rattle.std.specs.BTreeMap.{IsOrdered};
ghost use Rattle.record_join.specs.Keys.{key_cmp};
ghost use Rattle.record_join.specs.BooksPasts.{BooksStand};
ghost use Rattle.desk_machine.specs.Handing.{Exports};
ghost use Rattle.check_sign.specs.Exporting.{AreExports};
ghost use Rattle.desk_machine.specs.Machine.{moment_limit};
ghost use Rattle.record_replay.specs.declared.state.KeyState.{KeyState};
ghost use Rattle.desk_machine.specs.declared.call.KeyStanding.{KeyStanding};
ghost use Rattle.desk_machine.specs.States.{key_standing, key_state, state_in};
ghost use Rattle.desk_machine.specs.Watches.{Watching, WatchesStand, standing_of};

use crate::marking::state_of;
use desk_machine::{KeyStanding, KeyStandings, Watches};
use edge_kit::{Items, PubKey};
use record_join::Books;
use record_replay::KeyState;
use slash_defs::Book;
use std::alloc::{AllocError, Global};
use std::collections::BTreeMap;

/// The exports of those of the keys that are kept, in key order, each once.
pub fn exports_of(
    alloc: Global,
    books: &Books,
    keys: &[PubKey],
) -> Result<Items<(PubKey, Book)>, AllocError>
    ensures { IfOk result (λ list. (pasts : List (PubKey × Past)) → BooksStand books.now pasts → Exports pasts keys.now list) }
{
    let mut found = BTreeMap::new(alloc);
    'keys: for key in keys {
        export_one(alloc, books, &mut found, key)?;
    }
    let list = found.into_iter().collect(alloc)?;
    Ok(Items::from_vec(list))
}

/// Finds the export of one more key, where it is kept.
fn export_one(
    alloc: Global,
    books: &Books,
    found: &mut BTreeMap<PubKey, Book>,
    key: &PubKey,
) -> Result<(), AllocError>
    ensures found { OnOk result ((asked : List PubKey) → AreExports books.now asked found.old.entries
        → AreExports books.now (asked ++ key.now ∷ []) found.new.entries) }
    ensures ordered { OnOk result (IsOrdered key_cmp found.old → IsOrdered key_cmp found.new) }
{
    if found.contains_key(key) {
        return Ok(());
    }
    let Some(record) = books.get(key) else {
        return Ok(());
    };
    let book = record.export(alloc)?;
    match found.insert(*key, book) {
        Ok(_) => Ok(()),
        Err(_) => Err(AllocError),
    }
}

/// The kept keys in order, each with how it stands at an epoch.
pub fn standings_of(
    alloc: Global,
    books: &Books,
    states: &BTreeMap<PubKey, KeyState>,
    watches: &Watches,
    now: u64,
) -> Result<KeyStandings, AllocError>
    requires { now ≤ moment_limit }
    ensures states { IfOk result (λ listed. map {B = PubKey × KeyState} (λ l. (l.0, state_in l.1)) listed ≡ map {B = PubKey × KeyState} (λ key. (key, key_state states.now.entries key)) (keys_of books.now)) }
    ensures standings { IfOk result (λ listed. (w : Watching) → WatchesStand watches.now w
        → listed ≡ map {B = PubKey × KeyStanding} (λ key. (key, key_standing (key_state states.now.entries key) (standing_of w key))) (keys_of books.now)) }
{
    let keys = books.keys(alloc)?;
    let mut listed = Vec::with_capacity(alloc, keys.len())?;
    'keys: for key in keys.as_slice() {
        listed.push((*key, standing(states, watches, key, now)))?;
    }
    Ok(Items::from_vec(listed))
}

/// How a kept key stands at an epoch.
fn standing(
    states: &BTreeMap<PubKey, KeyState>,
    watches: &Watches,
    key: &PubKey,
    now: u64,
) -> KeyStanding
    requires { now ≤ moment_limit }
    ensures state { state_in result ≡ key_state states.now.entries key.now }
    ensures standing { (w : Watching) → WatchesStand watches.now w → result ≡ key_standing (key_state states.now.entries key.now) (standing_of w key.now) }
{
    KeyStanding::of(state_of(states, key), watches.standing(key, now))
}
