//! Keys that become active.
ghost use Rattle.std.specs.Prelude.{◌≡◌, ◌≤◌, ℕ, List, [], ◌∷◌, None, IsSome, IfErr, OnErr, OnOk};
ghost use Rattle.edge_kit.specs.declared.bytes.Root.{Root};
ghost use Rattle.protect_record.specs.Pasts.{Past};
ghost use Rattle.record_codec.specs.declared.item.JournalItem.TheVariants as item;
ghost use Rattle.record_join.specs.BooksPasts.{BooksStand};
ghost use Rattle.record_join.specs.Keys.{with_key};
ghost use Rattle.record_journal.specs.TwoDisks.{EitherRose};
ghost use Rattle.record_replay.specs.Replaying.{with_known};
ghost use Rattle.check_sign.specs.Contents.{disks_in};
ghost use Rattle.desk_machine.specs.Machine.{FitsOne, moment_limit};
ghost use Rattle.desk_machine.specs.States.{IsIdle, State};
ghost use Rattle.check_sign.specs.Calls.{IsStep, Counted};
ghost use Rattle.check_sign.specs.Refusing.{WroteOrTold, at_moment};
ghost use Rattle.check_sign.specs.Standing.{DeskStands};
ghost use Rattle.check_sign.specs.Writing.{HoldsJournal, Moved, journal_of};
ghost use Rattle.desk_machine.specs.declared.call.DeskCall.TheVariants as DeskCall;

use crate::desk::Desk;
use crate::marking::{mark_kept, state_of, unmark};
use crate::writing::{refusal, write_items};
use desk_machine::{DeskReply, Event};
use desk_parts::{fits_one, note};
use edge_kit::{Disk, PubKey};
use record_codec::JournalItem;
use record_join::Books;
use record_journal::Journal;
use record_replay::KeyState;
use std::alloc::Global;
use std::collections::BTreeMap;

impl<D: Disk> Desk<D> {
    /// Makes a key active.
    pub(crate) fn activate_key(&mut self, key: PubKey, now: u64) -> DeskReply
        requires { now ≤ moment_limit }
        ensures machine { IsStep self.old.contents (DeskCall.Activate key now) result self.new.contents }
        ensures counted { Counted self.old.contents (DeskCall.Activate key now) result self.new.contents }
        ensures rose { result ≡ DeskReply.Disk → self.old.contents.torn ≡ None → EitherRose D.faults (disks_in self.old) (disks_in self.new) }
        ensures moved { Moved D.moment D.leaves D.faults (journal_of self.old) (journal_of self.new) }
    {
        let may = self.may_activate(&key);
        self.latest = self.latest.max(now);
        match may {
            Ok(()) => {}
            Err(bar) => return bar,
        }
        let Ok(()) = self.watches.reserve(&key) else {
            return DeskReply::OutOfMemory;
        };
        match write_active(
            &mut self.journal,
            self.alloc,
            &mut self.books,
            &mut self.states,
            key,
        ) {
            Ok(()) => {}
            Err(told) => return told,
        }
        self.watches.begin(&key, self.latest);
        note(&mut self.events, Event::Activated { key }, self.latest);
        DeskReply::Active
    }

    /// Whether a key may become active. The `Err` is the first of what bars it: the disk failed, its state, or
    /// that too many keys would be kept.
    fn may_activate(&self, key: &PubKey) -> Result<(), DeskReply>
        ensures machine { IfErr result (λ r. (now : ℕ) → IsStep self.now.contents (DeskCall.Activate key.now now) r (at_moment self.now.contents now)) }
        ensures counted { IfErr result (λ r. (now : ℕ) → Counted self.now.contents (DeskCall.Activate key.now now) r (at_moment self.now.contents now)) }
        ensures failed { IfErr result (λ r. r ≡ DeskReply.Disk → IsSome self.now.contents.torn) }
        ensures up { OnOk result (self.now.contents.torn ≡ None) }
        ensures may { OnOk result ((state : State) → DeskStands self.now.contents state → IsIdle state key.now × FitsOne state key.now) }
    {
        if self.journal.failed() {
            return Err(DeskReply::Disk);
        }
        match state_of(&self.states, key) {
            KeyState::Active => return Err(DeskReply::Already),
            KeyState::Closing => return Err(DeskReply::Closing),
            KeyState::Known | KeyState::Closed => {}
        }
        if !fits_one(&self.books, key) {
            return Err(DeskReply::TooManyKeys {
                have: self.books.len() as u64,
                new: 1,
            });
        }
        Ok(())
    }
}

/// Keeps a key and makes it active, once that is on the disk. The `Err` names the fault; records and states are then
/// as before.
fn write_active<D: Disk>(
    journal: &mut Journal<D>,
    alloc: Global,
    books: &mut Books,
    states: &mut BTreeMap<PubKey, KeyState>,
    key: PubKey,
) -> Result<(), DeskReply>
    requires up { journal.old.torn ≡ None }
    requires held { (g : Root) × HoldsJournal D.moment D.leaves g journal.old }
    ensures wrote { WroteOrTold D.faults journal.old (item.ActivateUndated key ∷ []) journal.new result }
    ensures moved { Moved D.moment D.leaves D.faults journal.old journal.new }
    ensures holds { (g : Root) → HoldsJournal D.moment D.leaves g journal.old → HoldsJournal D.moment D.leaves g journal.new }
    ensures known { OnOk result ((pasts : List (PubKey × Past)) → BooksStand books.old pasts → BooksStand books.new (with_known pasts key)) }
    ensures active { OnOk result (states.new.entries ≡ with_key states.old.entries key KeyState.Active) }
    ensures kept { OnErr result ((pasts : List (PubKey × Past)) → BooksStand books.old pasts → BooksStand books.new pasts) }
    ensures unmarked { OnErr result (states.new.entries ≡ states.old.entries) }
{
    let Ok((fresh, before)) = mark_kept(books, states, key) else {
        return Err(DeskReply::OutOfMemory);
    };
    match write_items(journal, alloc, &[JournalItem::ActivateUndated { key }]) {
        Ok(()) => Ok(()),
        Err(fault) => {
            unmark(states, &key, before);
            books.take_back(fresh);
            Err(refusal(fault))
        }
    }
}
