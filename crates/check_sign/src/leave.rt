//! What lets a key sign, and leave to sign what is no block and no vote.
ghost use Rattle.std.specs.Prelude.{◌≡◌, ◌≤◌, None, IfOk, IfErr};
ghost use Rattle.record_journal.specs.TwoDisks.{EitherRose};
ghost use Rattle.check_sign.specs.Contents.{disks_in};
ghost use Rattle.desk_machine.specs.States.{State};
ghost use Rattle.desk_machine.specs.Machine.{IsBarred, IsUp, MaySign, moment_limit};
ghost use Rattle.check_sign.specs.Bars.{reply_of_bar};
ghost use Rattle.check_sign.specs.Calls.{IsBar, IsOwnBar, IsStep, IsOwn, Counted, MaySignHere};
ghost use Rattle.check_sign.specs.Standing.{DeskStands};
ghost use Rattle.check_sign.specs.Writing.{Moved, journal_of};
ghost use Rattle.desk_machine.specs.declared.call.DeskCall.TheVariants as DeskCall;

use crate::desk::Desk;
use crate::marking::state_of;
use desk_machine::{DeskReply, Event, WatchState};
use desk_parts::{give_leave, make_room, note};
use edge_kit::{Disk, PubKey};
use record_replay::KeyState;

/// Why a key may not sign.
#[derive(Drop)]
pub enum Bar {
    /// The disk failed.
    Disk,
    /// No past is kept of the key.
    Unknown,
    /// The key is not active.
    NotActive,
    /// The key is being closed.
    Closing,
    /// The key was seen live elsewhere in this epoch.
    Live { epoch: u64 },
    /// What the watch still has to be told of: one epoch, or two.
    Watching { first: u64, second: Option<u64> },
}

/// The reply that names the bar.
fn barred(bar: Bar) -> DeskReply
    ensures { result ≡ reply_of_bar bar }
{
    match bar {
        Bar::Disk => DeskReply::Disk,
        Bar::Unknown => DeskReply::Unknown,
        Bar::NotActive => DeskReply::NotActive,
        Bar::Closing => DeskReply::Closing,
        Bar::Live { epoch } => DeskReply::Live { epoch },
        Bar::Watching { first, second } => DeskReply::Watching { first, second },
    }
}

impl<D: Disk> Desk<D> {
    /// Whether a key may sign now. The `Err` is the first of what bars it: the disk failed, no past is kept of the
    /// key, its state, or its watch.
    pub(crate) fn may_sign(&self, key: &PubKey) -> Result<(), DeskReply>
        ensures barred { IfErr result (λ r. (state : State) → DeskStands self.now.contents state → IsBarred state key.now r) }
        ensures bar { IfErr result (λ r. IsBar self.now.contents.torn r) }
        ensures may { IfOk result (λ _. (state : State) → DeskStands self.now.contents state → IsUp state × MaySign state key.now) }
        ensures own { IfOk result (λ _. MaySignHere self.now.contents key.now) }
        ensures own_bar { IfErr result (λ r. IsOwnBar self.now.contents key.now r) }
    {
        match self.is_free(key) {
            Ok(()) => Ok(()),
            Err(bar) => Err(barred(bar)),
        }
    }

    /// Whether a key may sign now. The `Err` is the first of what bars it.
    pub(crate) fn is_free(&self, key: &PubKey) -> Result<(), Bar>
        ensures barred { IfErr result (λ b. (state : State) → DeskStands self.now.contents state → IsBarred state key.now (reply_of_bar b)) }
        ensures bar { IfErr result (λ b. IsBar self.now.contents.torn (reply_of_bar b)) }
        ensures may { IfOk result (λ _. (state : State) → DeskStands self.now.contents state → IsUp state × MaySign state key.now) }
        ensures own { IfOk result (λ _. MaySignHere self.now.contents key.now) }
        ensures own_bar { IfErr result (λ b. IsOwnBar self.now.contents key.now (reply_of_bar b)) }
    {
        if self.journal.failed() {
            return Err(Bar::Disk);
        }
        let Some(_) = self.books.get(key) else {
            return Err(Bar::Unknown);
        };
        match state_of(&self.states, key) {
            KeyState::Active => {}
            KeyState::Closing => return Err(Bar::Closing),
            KeyState::Known | KeyState::Closed => return Err(Bar::NotActive),
        }
        match self.watches.standing(key, self.latest) {
            WatchState::Allowed => Ok(()),
            WatchState::Live(epoch) => Err(Bar::Live { epoch }),
            WatchState::Missing { first, second } => Err(Bar::Watching { first, second }),
        }
    }

    /// Grants leave to sign what is no block and no vote.
    pub(crate) fn allow_key(&mut self, key: PubKey, now: u64) -> DeskReply
        requires { now ≤ moment_limit }
        ensures machine { IsStep self.old.contents (DeskCall.Allow key now) result self.new.contents }
        ensures counted { Counted self.old.contents (DeskCall.Allow key now) result self.new.contents }
        ensures own { IsOwn self.old.contents (DeskCall.Allow key now) result self.new.contents }
        ensures rose { result ≡ DeskReply.Disk → self.old.contents.torn ≡ None → EitherRose D.faults (disks_in self.old) (disks_in self.new) }
        ensures moved { Moved D.moment D.leaves D.faults (journal_of self.old) (journal_of self.new) }
    {
        self.latest = self.latest.max(now);
        match self.may_sign(&key) {
            Ok(()) => {}
            Err(bar) => return bar,
        }
        if !make_room(&mut self.grants) {
            return DeskReply::OutOfMemory;
        }
        let latest = self.latest;
        let grant = give_leave(&mut self.events, &mut self.grants, key, latest);
        DeskReply::Granted(grant)
    }

    /// Takes in whether a key was seen live in an epoch.
    pub(crate) fn note_answer(&mut self, key: PubKey, epoch: u64, live: bool, now: u64) -> DeskReply
        requires { now ≤ moment_limit }
        ensures machine { IsStep self.old.contents (DeskCall.Answer key epoch live now) result self.new.contents }
        ensures counted { Counted self.old.contents (DeskCall.Answer key epoch live now) result self.new.contents }
        ensures rose { result ≡ DeskReply.Disk → self.old.contents.torn ≡ None → EitherRose D.faults (disks_in self.old) (disks_in self.new) }
        ensures moved { Moved D.moment D.leaves D.faults (journal_of self.old) (journal_of self.new) }
    {
        self.latest = self.latest.max(now);
        let Some(_) = self.books.get(&key) else {
            return DeskReply::Unknown;
        };
        match state_of(&self.states, &key) {
            KeyState::Active | KeyState::Closing => {}
            KeyState::Known | KeyState::Closed => return DeskReply::NotActive,
        }
        let Ok(()) = self.watches.reserve(&key) else {
            return DeskReply::OutOfMemory;
        };
        self.watches.tell(&key, epoch, live, now);
        let told = Event::Told { key, epoch, live };
        note(&mut self.events, told, self.latest);
        DeskReply::Noted
    }
}
