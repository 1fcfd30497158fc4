//! What the desk hands out of what it keeps.
ghost use Rattle.std.specs.Prelude.{◌≡◌, None};
ghost use Rattle.record_journal.specs.TwoDisks.{EitherRose};
ghost use Rattle.check_sign.specs.Contents.{disks_in};
ghost use Rattle.check_sign.specs.Calls.{IsOwn, IsStep, Counted};
ghost use Rattle.check_sign.specs.Writing.{Moved, journal_of};
ghost use Rattle.desk_machine.specs.declared.call.DeskCall.TheVariants as DeskCall;

use crate::desk::Desk;
use crate::exporting::{exports_of, standings_of};
use desk_machine::{DeskReply, Keys};
use desk_parts::weigh;
use edge_kit::Disk;
use slash_defs::File;
use std::alloc::AllocError;

impl<D: Disk> Desk<D> {
    /// The interchange file (EIP-3076) of those of the keys that are kept.
    pub(crate) fn export_keys(&mut self, keys: Keys) -> DeskReply
        ensures machine { IsStep self.old.contents (DeskCall.Export keys) result self.new.contents }
        ensures counted { Counted self.old.contents (DeskCall.Export keys) result self.new.contents }
        ensures rose { result ≡ DeskReply.Disk → self.old.contents.torn ≡ None → EitherRose D.faults (disks_in self.old) (disks_in self.new) }
        ensures moved { Moved D.moment D.leaves D.faults (journal_of self.old) (journal_of self.new) }
    {
        match exports_of(self.alloc, &self.books, keys.as_slice()) {
            Ok(books) => DeskReply::Exported(File {
                genesis: self.genesis,
                books,
            }),
            Err(AllocError) => DeskReply::OutOfMemory,
        }
    }

    /// The kept keys in order, each with how it stands.
    pub(crate) fn list_states(&mut self) -> DeskReply
        ensures machine { IsStep self.old.contents (DeskCall.Keys) result self.new.contents }
        ensures counted { Counted self.old.contents (DeskCall.Keys) result self.new.contents }
        ensures own { IsOwn self.old.contents (DeskCall.Keys) result self.new.contents }
        ensures rose { result ≡ DeskReply.Disk → self.old.contents.torn ≡ None → EitherRose D.faults (disks_in self.old) (disks_in self.new) }
        ensures moved { Moved D.moment D.leaves D.faults (journal_of self.old) (journal_of self.new) }
    {
        match standings_of(
            self.alloc,
            &self.books,
            &self.states,
            &self.watches,
            self.latest,
        ) {
            Ok(listed) => DeskReply::Keys(listed),
            Err(AllocError) => DeskReply::OutOfMemory,
        }
    }

    /// Whether the disk has failed since the desk was opened.
    pub(crate) fn tell_failed(&mut self) -> DeskReply
        ensures machine { IsStep self.old.contents (DeskCall.HasFailed) result self.new.contents }
        ensures counted { Counted self.old.contents (DeskCall.HasFailed) result self.new.contents }
        ensures own { IsOwn self.old.contents (DeskCall.HasFailed) result self.new.contents }
        ensures rose { result ≡ DeskReply.Disk → self.old.contents.torn ≡ None → EitherRose D.faults (disks_in self.old) (disks_in self.new) }
        ensures moved { Moved D.moment D.leaves D.faults (journal_of self.old) (journal_of self.new) }
    {
        DeskReply::HasFailed(self.journal.failed())
    }

    /// How many bytes the current file of the journal has, and at most how many a compaction would leave.
    pub(crate) fn tell_size(&mut self) -> DeskReply
        ensures machine { IsStep self.old.contents (DeskCall.Size) result self.new.contents }
        ensures counted { Counted self.old.contents (DeskCall.Size) result self.new.contents }
        ensures own { IsOwn self.old.contents (DeskCall.Size) result self.new.contents }
        ensures rose { result ≡ DeskReply.Disk → self.old.contents.torn ≡ None → EitherRose D.faults (disks_in self.old) (disks_in self.new) }
        ensures moved { Moved D.moment D.leaves D.faults (journal_of self.old) (journal_of self.new) }
    {
        DeskReply::Size {
            size: self.journal.size(),
            weight: weigh(&self.books),
        }
    }
}
