//! The watches of keys, as items make them.
ghost use Rattle.std.specs.Prelude.{◌≡◌, ◌≤◌, List, OnOk};
ghost use Rattle.doppel_watch.specs.Moments.{moment_limit};
ghost use Rattle.edge_kit.specs.declared.bytes.PubKey.{PubKey};
ghost use Rattle.record_codec.specs.Spelling.{MomentFits};
ghost use Rattle.record_join.specs.Keys.{with_key};
ghost use Rattle.record_replay.specs.Watches.{AreWatchesOf, Watched, fresh_watch, with_telling, with_watch, without_watch};

use doppel_watch::Watch;
use edge_kit::PubKey;
use record_codec::JournalItem;
use std::alloc::AllocError;
use std::collections::BTreeMap;

/// Takes in what an item says of the watch of its key.
///
/// # Errors
///
/// `AllocError` where memory was wanted.
pub fn take_watch(
    watches: &mut BTreeMap<PubKey, Watch>,
    item: &JournalItem,
) -> Result<(), AllocError>
    requires { MomentFits item.now }
    ensures { OnOk result ((watched : List (PubKey × Watched)) → AreWatchesOf watches.old.entries watched
        → AreWatchesOf watches.new.entries (with_watch watched item.now)) }
{
    match *item {
        JournalItem::Activate { key, epoch } => begin(watches, key, epoch)?,
        JournalItem::Answer {
            key,
            epoch,
            live,
            moment,
        } => tell(watches, key, epoch, live, moment),
        JournalItem::ActivateUndated { key } | JournalItem::Close { key } => end(watches, key),
        JournalItem::Block { .. } | JournalItem::Vote { .. } | JournalItem::Floors { .. } => {}
    }
    Ok(())
}

/// The watch of a key begins at this epoch, whatever was there.
fn begin(watches: &mut BTreeMap<PubKey, Watch>, key: PubKey, epoch: u64) -> Result<(), AllocError>
    requires { epoch ≤ moment_limit }
    ensures { OnOk result ((watched : List (PubKey × Watched)) → AreWatchesOf watches.old.entries watched
        → AreWatchesOf watches.new.entries (with_key watched key (fresh_watch epoch))) }
{
    if watches.insert(key, Watch::start(epoch)).is_err() {
        return Err(AllocError);
    }
    Ok(())
}

/// What is told of a key joins its watch, where it has one.
fn tell(watches: &mut BTreeMap<PubKey, Watch>, key: PubKey, epoch: u64, live: bool, moment: u64)
    requires { moment ≤ moment_limit }
    ensures { (watched : List (PubKey × Watched)) → AreWatchesOf watches.old.entries watched
        → AreWatchesOf watches.new.entries (with_telling watched key (record { epoch = epoch; live = live; moment = moment })) }
{
    let Some(watch) = watches.get_mut(&key) else {
        return;
    };
    watch.answer(epoch, live, moment);
}

/// The watch of a key ends, where it has one.
fn end(watches: &mut BTreeMap<PubKey, Watch>, key: PubKey)
    ensures { (watched : List (PubKey × Watched)) → AreWatchesOf watches.old.entries watched
        → AreWatchesOf watches.new.entries (without_watch watched key) }
{
    watches.remove(&key);
}
