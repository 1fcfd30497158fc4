//! What items say of each key that they name.
ghost use Rattle.std.specs.Prelude.{◌≡◌, ◌++◌, [], List, OnOk};
ghost use Rattle.std.specs.List.{AllByRecursion};
ghost use Rattle.record_codec.specs.Reading.{batch_of};
ghost use Rattle.record_codec.specs.Spelling.{MomentFits};
ghost use Rattle.record_codec.specs.declared.item.JournalItem.{JournalItem};
ghost use Rattle.record_replay.specs.Gathering.{IsGathered, with_item};
ghost use Rattle.record_replay.specs.Items.{items_or_none, key_of, with_state};

use crate::key_history::KeyHistory;
use crate::state::KeyState;
use crate::watches::take_watch;
use doppel_watch::Watch;
use edge_kit::PubKey;
use record_codec::{JournalItem, JournalVersion, decode};
use std::alloc::{AllocError, Global};
use std::collections::BTreeMap;

/// The keys that items name, each with what they say of it, the states of those that were activated or closed, and
/// the watches of those that have one.
#[derive(Drop)]
pub struct Histories {
    pub keys: BTreeMap<PubKey, KeyHistory>,
    pub states: BTreeMap<PubKey, KeyState>,
    pub watches: BTreeMap<PubKey, Watch>,
}

impl Histories {
    /// No item. Takes no memory.
    pub fn new(alloc: Global) -> Self
        ensures { IsGathered [] result.keys.entries result.states.entries result.watches.entries }
    {
        Histories {
            keys: BTreeMap::new(alloc),
            states: BTreeMap::new(alloc),
            watches: BTreeMap::new(alloc),
        }
    }

    /// Takes in the items of a payload of a file of this version, if it can be read.
    ///
    /// # Errors
    ///
    /// `AllocError` where memory was wanted.
    pub fn take_payload(
        &mut self,
        alloc: Global,
        version: JournalVersion,
        payload: &[u8],
    ) -> Result<(), AllocError>
        ensures { OnOk result ((before : List JournalItem) → IsGathered before self.old.keys.entries self.old.states.entries self.old.watches.entries
            → IsGathered (before ++ items_or_none (batch_of version payload.now)) self.new.keys.entries self.new.states.entries self.new.watches.entries) }
    {
        match decode(alloc, version, payload)? {
            Ok(items) => self.take_items(alloc, items.as_slice()),
            Err(_) => Ok(()),
        }
    }

    /// Takes in items, in order.
    fn take_items(&mut self, alloc: Global, items: &[JournalItem]) -> Result<(), AllocError>
        requires { AllByRecursion MomentFits items.now }
        ensures { OnOk result ((before : List JournalItem) → IsGathered before self.old.keys.entries self.old.states.entries self.old.watches.entries
            → IsGathered (before ++ items.now) self.new.keys.entries self.new.states.entries self.new.watches.entries) }
    {
        for item in items {
            take_key(&mut self.keys, alloc, item)?;
            take_state(&mut self.states, item)?;
            take_watch(&mut self.watches, item)?;
        }
        Ok(())
    }
}

/// Takes in what an item says of its key, which is kept from then on.
fn take_key(
    keys: &mut BTreeMap<PubKey, KeyHistory>,
    alloc: Global,
    item: &JournalItem,
) -> Result<(), AllocError>
    ensures { OnOk result (keys.new.entries ≡ with_item keys.old.entries item.now) }
{
    let key = key_of(item);
    if let Some(gathered) = keys.get_mut(&key) {
        return gathered.take(item);
    }
    let mut gathered = KeyHistory::new(alloc);
    gathered.take(item)?;
    if keys.insert(key, gathered).is_err() {
        return Err(AllocError);
    }
    Ok(())
}

/// Takes in what an item says of the state of its key.
fn take_state(states: &mut BTreeMap<PubKey, KeyState>, item: &JournalItem) -> Result<(), AllocError>
    ensures { OnOk result (states.new.entries ≡ with_state states.old.entries item.now) }
{
    let (key, state) = match *item {
        JournalItem::ActivateUndated { key } | JournalItem::Activate { key, .. } => {
            (key, KeyState::Active)
        }
        JournalItem::Close { key } => (key, KeyState::Closed),
        _ => return Ok(()),
    };
    if states.insert(key, state).is_err() {
        return Err(AllocError);
    }
    Ok(())
}

/// The key that an item names.
fn key_of(item: &JournalItem) -> PubKey
    ensures { result ≡ key_of item.now }
{
    match *item {
        JournalItem::Block { key, .. }
        | JournalItem::Vote { key, .. }
        | JournalItem::Floors { key, .. }
        | JournalItem::ActivateUndated { key }
        | JournalItem::Activate { key, .. }
        | JournalItem::Answer { key, .. }
        | JournalItem::Close { key } => key,
    }
}
