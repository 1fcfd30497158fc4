//! The desk.
ghost use Rattle.std.specs.Prelude.{◌≡◌, ◌+◌, ◌≤◌, None, Contains, option_copied, IfOk};
ghost use Rattle.record_journal.specs.Journals.{MayRead};
ghost use Rattle.std.specs.Map.{keys_of};
ghost use Rattle.record_journal.specs.TwoDisks.{LeftPair, EitherRose};
ghost use Rattle.check_sign.specs.Contents.{disks_in};
ghost use Rattle.record_join.specs.Keys.{kept_of};
ghost use Rattle.desk_machine.specs.Machine.{MayCall};
ghost use Rattle.check_sign.specs.Calls.{IsCallOf, IsOwn, IsStep, Counted, LeavesDesk, WritesOne};
ghost use Rattle.check_sign.specs.Writing.{KeepsJournal, Moved, journal_of};

use desk_machine::{DeskCall, DeskReply, Event, Events, Grant, Keys, OpenGrants, Outcome, Watches};
use desk_parts::note;
use edge_kit::{Disk, Disks, PubKey, Root};
use protect_record::Record;
use record_join::Books;
use record_journal::Journal;
use record_replay::KeyState;
use std::alloc::{AllocError, Global};
use std::collections::BTreeMap;
use std::marker::Model;

/// The desk: the kept keys with what was imported and signed for each, their states, and the grants that are
/// open. It decides whether a message may be signed, and has what it decided on its disk before it grants.
#[derive(Drop)]
pub struct Desk<D: Disk> {
    pub(crate) alloc: Global,
    pub(crate) genesis: Root,
    pub(crate) watches: Watches,
    pub(crate) journal: Journal<D>,
    pub(crate) books: Books,
    pub(crate) states: BTreeMap<PubKey, KeyState>,
    pub(crate) grants: OpenGrants,
    pub(crate) latest: u64,
    pub(crate) events: Events,
}

impl<D: Disk> Model for Desk<D> {
    ghost use Rattle.std.specs.Prelude.{◌≤◌};
    ghost use Rattle.check_sign.specs.Contents.{Contents, Seen};
    ghost use Rattle.check_sign.specs.Writing.{HoldsJournal};
    ghost use Rattle.desk_machine.specs.Machine.{moment_limit};

    ghost Value = { Seen D };

    ghost view = { λ d. record {
      current = d.journal.current;
      other = d.journal.other;
      place = d.journal.place;
      contents = record {
        genesis = d.genesis;
        keys = d.books;
        states = d.states.entries;
        grants = d.grants.grants;
        next = d.grants.next;
        latest = d.latest;
        watches = d.watches;
        events = d.events.items;
        payloads = d.journal.payloads;
        size = d.journal.size;
        torn = d.journal.torn;
      };
    } };

    // The latest moment is within its limit.
    ghost invariant = { λ d. HoldsJournal D.moment D.leaves d.genesis d.journal × (d.latest ≤ moment_limit) };
}

impl<D: Disk> Desk<D> {
    /// One call of the desk machine, whichever state the desk stands for. After a refusal, want of memory
    /// too, the desk is as before but for the latest moment; after `Disk` it has failed.
    pub fn call(&mut self, call: DeskCall) -> DeskReply
        requires { MayCall self.old.contents.grants call }
        ensures { IsCallOf D.moment D.leaves D.faults self.old self.new (call) result }
    {
        self.dispatch(call)
    }

    /// Does a call.
    fn dispatch(&mut self, call: DeskCall) -> DeskReply
        requires { MayCall self.old.contents.grants call }
        ensures machine { IsStep self.old.contents (call) result self.new.contents }
        ensures counted { Counted self.old.contents (call) result self.new.contents }
        ensures own { IsOwn self.old.contents (call) result self.new.contents }
        ensures rose { result ≡ DeskReply.Disk → self.old.contents.torn ≡ None → EitherRose D.faults (disks_in self.old) (disks_in self.new) }
        ensures keeps { KeepsJournal D.moment D.leaves D.faults (journal_of self.old) (journal_of self.new) }
        ensures disks { WritesOne (call) result self.old self.new }
    {
        match call {
            DeskCall::Merge { file } => self.merge_file(file),
            DeskCall::Activate { key, now } => self.activate_key(key, now),
            DeskCall::Propose { key, message, now } => self.propose_message(key, message, now),
            DeskCall::Record { proposals, now } => self.record_messages(proposals, now),
            DeskCall::Allow { key, now } => self.allow_key(key, now),
            DeskCall::Answer {
                key,
                epoch,
                live,
                now,
            } => self.note_answer(key, epoch, live, now),
            DeskCall::Settle { grant, outcome } => {
                self.settle_grant(grant, outcome);
                DeskReply::Settled
            }
            DeskCall::BeginClose { key } => self.begin_closing(key),
            DeskCall::FinishClose { key } => self.finish_closing(key),
            DeskCall::Export { keys } => self.export_keys(keys),
            DeskCall::Prune { key } => self.prune_key(key),
            DeskCall::Keys => self.list_states(),
            DeskCall::HasFailed => self.tell_failed(),
            DeskCall::Size => self.tell_size(),
            DeskCall::Compact => self.compact_journal(),
        }
    }

    /// Spends a grant that is open at this desk. Takes no memory.
    pub(crate) fn settle_grant(&mut self, grant: Grant, outcome: Outcome)
        requires { Contains self.old.contents.grants grant }
        ensures machine { IsStep self.old.contents (DeskCall.Settle grant outcome) DeskReply.Settled self.new.contents }
        ensures counted { Counted self.old.contents (DeskCall.Settle grant outcome) DeskReply.Settled self.new.contents }
        ensures rose { DeskReply.Settled ≡ DeskReply.Disk → self.old.contents.torn ≡ None → EitherRose D.faults (disks_in self.old) (disks_in self.new) }
        ensures moved { Moved D.moment D.leaves D.faults (journal_of self.old) (journal_of self.new) }
    {
        let number = self.grants.settle(grant);
        let settled = Event::Settled {
            grant: number,
            outcome,
        };
        note(&mut self.events, settled, self.latest);
    }

    /// The kept keys, in order.
    ///
    /// # Errors
    ///
    /// `AllocError` where memory was wanted.
    pub fn kept_keys(&self) -> Result<Keys, AllocError>
        ensures { IfOk result (λ keys. keys ≡ keys_of self.now.contents.keys) }
    {
        self.books.keys(self.alloc)
    }

    /// The record of a key, lent, if a past is kept of it. It stands for the key's past. Takes no memory.
    pub fn kept(&self, key: &PubKey) -> Option<&Record>
        ensures { option_copied result ≡ kept_of self.now.contents.keys key.now }
    {
        self.books.get(key)
    }

    /// The disks as they are, and what the desk did since it was opened, in order, as contracts speak of it. Takes
    /// no memory.
    pub fn end(self) -> (Disks<D>, Events)
        ensures disks { result.0 ≡ disks_in self }
        ensures events { result.1.items ≡ self.contents.events }
        ensures left { LeavesDesk D.moment D.leaves (disks_in self) self.contents }
        ensures holds { LeftPair D.moment D.leaves (disks_in self) (MayRead (journal_of self)) }
    {
        (self.journal.end(), self.events)
    }
}
