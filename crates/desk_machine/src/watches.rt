//! The watches of a desk's keys.
ghost use Rattle.std.specs.Prelude.{◌≡◌, ◌≤◌, [], IsSome, OnOk};
ghost use Rattle.doppel_watch.specs.Moments.{moment_limit};
ghost use Rattle.record_join.specs.Keys.{kept_of};
ghost use Rattle.record_replay.specs.Watches.{Watched};
ghost use Rattle.desk_machine.specs.Watches.{IsOwnWatch, Watching, WatchesStand, fresh_watching, standing_of, standing_under, with_begun, with_told};

use doppel_watch::{Watch, WatchState};
use edge_kit::PubKey;
use std::alloc::{AllocError, Global};
use std::collections::BTreeMap;
use std::marker::Model;

/// The watches of a desk's keys since it was opened, and whether keys are watched. A key of which nothing is kept
/// is watched from the opening on.
#[derive(Drop)]
pub struct Watches {
    on: bool,
    opened: u64,
    kept: BTreeMap<PubKey, Watch>,
}

impl Model for Watches {
    ghost use Rattle.std.specs.Prelude.{◌≤◌};
    ghost use Rattle.doppel_watch.specs.Moments.{moment_limit};
    ghost use Rattle.desk_machine.specs.Watches.{KeptWatches, Watching, WatchesStand};

    ghost Value = { KeptWatches };

    ghost view = { λ w. record { on = w.on; opened = w.opened; kept = w.kept.entries } };

    // They stand for something that was told.
    ghost invariant = { λ w. (w.opened ≤ moment_limit) × ((x : Watching) × WatchesStand (record { on = w.on; opened = w.opened; kept = w.kept.entries }) x) };
}

impl Watches {
    /// The watches of a desk that is opened at this epoch. Takes no memory.
    pub fn new(alloc: Global, on: bool, now: u64) -> Self
        requires { now ≤ moment_limit }
        ensures stands { WatchesStand result (fresh_watching on now) }
        ensures on { result.on ≡ on }
    {
        Watches {
            on,
            opened: now,
            kept: BTreeMap::new(alloc),
        }
    }

    /// How the watch of an active key stands. Takes no memory.
    pub fn standing(&self, key: &PubKey, now: u64) -> WatchState
        requires { now ≤ moment_limit }
        ensures own { (x : Watched) × IsOwnWatch self.now key.now x × (result ≡ standing_under self.now.on x) }
        ensures stands { (w : Watching) → WatchesStand self.now w → result ≡ standing_of w key.now }
    {
        if !self.on {
            return WatchState::Allowed;
        }
        match self.kept.get(key) {
            Some(watch) => watch.state(now),
            None => Watch::start(self.opened).state(now),
        }
    }

    /// Makes room for the watch of a key. Nothing else changes.
    ///
    /// # Errors
    ///
    /// `AllocError` where memory was wanted.
    pub fn reserve(&mut self, key: &PubKey) -> Result<(), AllocError>
        ensures stands { (w : Watching) → WatchesStand self.old w → WatchesStand self.new w }
        ensures on { self.new.on ≡ self.old.on }
        ensures room { OnOk result (IsSome (kept_of self.new.kept key.now)) }
    {
        if self.kept.contains_key(key) {
            return Ok(());
        }
        let Ok(_) = self.kept.insert(*key, Watch::start(self.opened)) else {
            return Err(AllocError);
        };
        Ok(())
    }

    /// Begins the watch of a key that becomes active at this epoch, for which there is room. Takes no memory.
    pub fn begin(&mut self, key: &PubKey, now: u64)
        requires room { IsSome (kept_of self.old.kept key.now) }
        requires moment { now ≤ moment_limit }
        ensures stands { (w : Watching) → WatchesStand self.old w → WatchesStand self.new (with_begun w key.now now) }
        ensures on { self.new.on ≡ self.old.on }
    {
        let Some(watch) = self.kept.get_mut(key) else {
            return;
        };
        *watch = Watch::start(now);
    }

    /// Takes in what was told of a key, for which there is room. Takes no memory.
    pub fn tell(&mut self, key: &PubKey, epoch: u64, live: bool, now: u64)
        requires room { IsSome (kept_of self.old.kept key.now) }
        requires moment { now ≤ moment_limit }
        ensures stands { (w : Watching) → WatchesStand self.old w
            → WatchesStand self.new (with_told w key.now (record { epoch = epoch; live = live; moment = now })) }
        ensures on { self.new.on ≡ self.old.on }
    {
        let Some(watch) = self.kept.get_mut(key) else {
            return;
        };
        watch.answer(epoch, live, now);
    }
}
