//! Keys that are closed.
ghost use Rattle.std.specs.Prelude.{◌≡◌, None, Some, IsSome, IsSomeAnd, IfErr, IfOk, OnOk};
ghost use Rattle.protect_record.specs.Exporting.{export_of};
ghost use Rattle.record_join.specs.Keys.{kept_of};
ghost use Rattle.record_journal.specs.TwoDisks.{EitherRose};
ghost use Rattle.check_sign.specs.Contents.{disks_in};
ghost use Rattle.desk_machine.specs.Grants.{open_grants};
ghost use Rattle.check_sign.specs.Calls.{IsStep, Counted};
ghost use Rattle.check_sign.specs.Writing.{Moved, journal_of};
ghost use Rattle.desk_machine.specs.declared.call.DeskCall.TheVariants as DeskCall;

use crate::desk::Desk;
use crate::marking::{set_state, state_of};
use crate::writing::{refusal, write_items};
use desk_machine::{DeskReply, Event};
use desk_parts::{note, note_closed};
use edge_kit::{Disk, PubKey};
use record_codec::JournalItem;
use record_replay::KeyState;
use slash_defs::Book;
use std::alloc::AllocError;

impl<D: Disk> Desk<D> {
    /// Begins to close an active key. Takes no memory.
    pub(crate) fn begin_closing(&mut self, key: PubKey) -> DeskReply
        ensures machine { IsStep self.old.contents (DeskCall.BeginClose key) result self.new.contents }
        ensures counted { Counted self.old.contents (DeskCall.BeginClose key) result self.new.contents }
        ensures rose { result ≡ DeskReply.Disk → self.old.contents.torn ≡ None → EitherRose D.faults (disks_in self.old) (disks_in self.new) }
        ensures moved { Moved D.moment D.leaves D.faults (journal_of self.old) (journal_of self.new) }
    {
        let Some(_) = self.books.get(&key) else {
            return DeskReply::Unknown;
        };
        match state_of(&self.states, &key) {
            KeyState::Active => {
                set_state(&mut self.states, &key, KeyState::Closing);
                note(&mut self.events, Event::CloseBegun { key }, self.latest);
                DeskReply::CloseBegun
            }
            KeyState::Closing => DeskReply::AlreadyClosing,
            KeyState::Known | KeyState::Closed => DeskReply::NotActive,
        }
    }

    /// Closes a key that is being closed, of which no grant is open.
    pub(crate) fn finish_closing(&mut self, key: PubKey) -> DeskReply
        ensures machine { IsStep self.old.contents (DeskCall.FinishClose key) result self.new.contents }
        ensures counted { Counted self.old.contents (DeskCall.FinishClose key) result self.new.contents }
        ensures rose { result ≡ DeskReply.Disk → self.old.contents.torn ≡ None → EitherRose D.faults (disks_in self.old) (disks_in self.new) }
        ensures moved { Moved D.moment D.leaves D.faults (journal_of self.old) (journal_of self.new) }
    {
        let book = match self.closing_book(&key) {
            Ok(book) => book,
            Err(bar) => return bar,
        };
        let items = [JournalItem::Close { key }];
        if let Err(fault) = write_items(&mut self.journal, self.alloc, &items) {
            return refusal(fault);
        }
        set_state(&mut self.states, &key, KeyState::Closed);
        DeskReply::Closed(note_closed(&mut self.events, key, book, self.latest))
    }

    /// What is handed over of a key that may be closed. The `Err` is the first of what bars it: the disk failed, no
    /// past is kept of the key, its state, its open grants, or want of memory.
    fn closing_book(&self, key: &PubKey) -> Result<Book, DeskReply>
        ensures machine { IfErr result (λ r. IsStep self.now.contents (DeskCall.FinishClose key.now) r self.now.contents) }
        ensures counted { IfErr result (λ r. Counted self.now.contents (DeskCall.FinishClose key.now) r self.now.contents) }
        ensures failed { IfErr result (λ r. r ≡ DeskReply.Disk → IsSome self.now.contents.torn) }
        ensures up { OnOk result (self.now.contents.torn ≡ None) }
        ensures closing { OnOk result (kept_of self.now.contents.states key.now ≡ Some KeyState.Closing) }
        ensures idle { OnOk result (open_grants self.now.contents.grants key.now ≡ 0) }
        ensures book { IfOk result (λ book. IsSomeAnd (kept_of self.now.contents.keys key.now) (λ parts. book ≡ export_of parts)) }
    {
        if self.journal.failed() {
            return Err(DeskReply::Disk);
        }
        let Some(record) = self.books.get(key) else {
            return Err(DeskReply::Unknown);
        };
        let state = state_of(&self.states, key);
        if state != KeyState::Closing {
            return Err(DeskReply::NotClosing(state));
        }
        let grants = self.grants.count_of(key) as u64;
        if grants > 0 {
            return Err(DeskReply::Busy { grants });
        }
        match record.export(self.alloc) {
            Ok(book) => Ok(book),
            Err(AllocError) => Err(DeskReply::OutOfMemory),
        }
    }
}
