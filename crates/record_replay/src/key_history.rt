//! What items say of one key.
ghost use Rattle.std.specs.Prelude.{◌≡◌, IfOk, OnOk};
ghost use Rattle.record_replay.specs.Gathering.{IsRecordOf, no_gains, with_gain};

use protect_record::{Floors, Record, join_floors};
use record_codec::JournalItem;
use slash_defs::{BlockEntry, VoteEntry};
use std::alloc::{AllocError, Global};
use std::marker::Model;

/// What items say of one key: the greatest of each floor, and the blocks and votes, as they came.
#[derive(Drop)]
pub struct KeyHistory {
    floors: Floors,
    blocks: Vec<BlockEntry>,
    votes: Vec<VoteEntry>,
}

impl Model for KeyHistory {
    ghost use Rattle.record_replay.specs.Gathering.{Gains};

    ghost Value = { Gains };

    ghost view = { λ g. record {
      floors = g.floors;
      blocks = g.blocks.items;
      votes = g.votes.items;
    } };
}

impl KeyHistory {
    /// Nothing. Takes no memory.
    pub fn new(alloc: Global) -> Self
        ensures { result ≡ no_gains }
    {
        KeyHistory {
            floors: Floors {
                block: None,
                vote: None,
            },
            blocks: Vec::new(alloc),
            votes: Vec::new(alloc),
        }
    }

    /// Takes in what an item says of its key. The key itself is not looked at.
    ///
    /// # Errors
    ///
    /// `AllocError` where memory was wanted.
    pub fn take(&mut self, item: &JournalItem) -> Result<(), AllocError>
        ensures { OnOk result (self.new ≡ with_gain self.old item.now) }
    {
        match *item {
            JournalItem::Block { entry, .. } => self.blocks.push(entry)?,
            JournalItem::Vote { entry, .. } => self.votes.push(entry)?,
            JournalItem::Floors { block, vote, .. } => {
                self.floors = join_floors(&self.floors, &Floors { block, vote });
            }
            JournalItem::ActivateUndated { .. }
            | JournalItem::Activate { .. }
            | JournalItem::Answer { .. }
            | JournalItem::Close { .. } => {}
        }
        Ok(())
    }

    /// The record of what was gathered: each entry that still counts, once.
    ///
    /// # Errors
    ///
    /// `AllocError` where memory was wanted.
    pub fn into_record(self) -> Result<Record, AllocError>
        ensures { IfOk result (IsRecordOf self) }
    {
        Record::of_parts(self.floors, self.blocks, self.votes)
    }
}
