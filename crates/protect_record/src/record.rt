//! The record of one key.
ghost use Rattle.std.specs.Prelude.{◌≡◌, ◌≤◌, ◌<◌, ◌-◌, ◌↔◌, [], List, IsTrue, OnOk, OnErr, IfOk, length, map};
ghost use Rattle.slash_defs.specs.declared.entry.Entry.TheVariants as entry;
ghost use Rattle.protect_record.specs.Parts.{no_floors, SameParts, HasRoom};
ghost use Rattle.protect_record.specs.Pasts.{Past, no_past, with_own, with_book, then_past};
ghost use Rattle.protect_record.specs.Passing.{Passes, BookRefuses};
ghost use Rattle.protect_record.specs.Standing.{Stands};
ghost use Rattle.protect_record.specs.Verdicts.{IsVerdict};
ghost use Rattle.protect_record.specs.Counting.{TakesFewSteps};
ghost use Rattle.protect_record.specs.Changes.{HasAdded, IsKept};
ghost use Rattle.std.specs.Option.{option_to_list};
ghost use Rattle.protect_record.specs.Floors.{book_floors, IsDeadBlock, IsDeadVote};
ghost use Rattle.protect_record.specs.Gathering.{Gathers, HasDropped, IsJoin, IsMerge, IsWellKept};
ghost use Rattle.protect_record.specs.Exporting.{export_of, prune_book, IsExportedExactly};
ghost use Rattle.slash_defs.specs.declared.message.Message.{Message};
ghost use Rattle.slash_defs.specs.FileOrder.{block_cmp, vote_cmp};
ghost use Rattle.protect_record.specs.Iterating.{entries_left};

use crate::bounds::{floors_of_book, greatest_slot, join_floors};
use crate::export::{greatest_of, vote_to_prune, votes_to_export};
use crate::floors::Floors;
use crate::kept::Kept;
use crate::living::{gather_blocks, gather_votes, keep_live_blocks, keep_live_votes};
use crate::pruning::{blocks_to_prune, votes_of};
use crate::sorted::insert_once;
use crate::verdict::Verdict;
use crate::walk::{block_verdict, vote_verdict};
use edge_kit::Items;
use slash_defs::{BlockEntry, Book, Message, VoteEntry};
use sorted_search::{SourceBounds, Steps, reserve_sparingly};
use std::alloc::{AllocError, Global};
use std::marker::{Brand, Model};
use std::sync::ledger::{Blank, Ledger};

/// The protection record of one key: the floors that its imported books set (EIP-3076), and the entries
/// that still count, in file order, each once.
#[derive(Drop)]
pub struct Record {
    floors: Floors,
    blocks: Vec<BlockEntry>,
    votes: Vec<VoteEntry>,
    sources: SourceBounds,
}

impl Model for Record {
    ghost use Rattle.std.specs.Prelude.{◌-◌, ◌/◌, min, vec_len, vec_capacity};
    ghost use Rattle.protect_record.specs.Parts.{Parts};
    ghost use Rattle.protect_record.specs.Gathering.{IsWellKept};
    ghost use Rattle.sorted_search.specs.Sources.{AreBounds};

    ghost Value = { Parts };

    ghost view = { λ r. record {
      floors = r.floors;
      blocks = r.blocks.items;
      votes = r.votes.items;
      block_room = (vec_capacity r.blocks - vec_len r.blocks) / 2;
      vote_room = min ((vec_capacity r.votes - vec_len r.votes) / 2) (r.sources.capacity - vec_len r.votes);
    } };

    ghost invariant = { λ r. IsWellKept r.floors r.blocks.items r.votes.items × AreBounds r.votes.items r.sources };
}

impl Record {
    /// The record of a key without a past: no floor and no entry. Takes no memory.
    pub fn new(alloc: Global) -> Self
        ensures empty { (result.blocks ≡ []) × (result.votes ≡ []) × (result.floors ≡ no_floors) }
        ensures stands { Stands result no_past }
    {
        Record {
            floors: Floors {
                block: None,
                vote: None,
            },
            blocks: Vec::new(alloc),
            votes: Vec::new(alloc),
            sources: SourceBounds::new(alloc),
        }
    }

    /// The record of these floors and of those of these entries that still count under them, each once. Memory that
    /// the lists have beyond that is given back.
    ///
    /// # Errors
    ///
    /// `AllocError` where memory was wanted.
    pub fn of_parts(
        floors: Floors,
        mut blocks: Vec<BlockEntry>,
        mut votes: Vec<VoteEntry>,
    ) -> Result<Self, AllocError>
        ensures floors { IfOk result (λ r. r.floors ≡ floors) }
        ensures blocks { IfOk result (λ r. HasDropped block_cmp (IsDeadBlock floors) blocks.items r.blocks) }
        ensures votes { IfOk result (λ r. HasDropped vote_cmp (IsDeadVote floors) votes.items r.votes) }
    {
        keep_live_blocks(&mut blocks, floors);
        keep_live_votes(&mut votes, floors);
        blocks.shrink_to_fit();
        votes.shrink_to_fit();
        let mut sources = SourceBounds::new(*votes.allocator());
        sources.reserve(votes.len())?;
        sources.rebuild(votes.as_slice());
        Ok(Record {
            floors,
            blocks,
            votes,
            sources,
        })
    }

    /// The first verdict that holds (EIP-3076, conditions 1 to 5). It is `Pass` exactly where the past that
    /// the record stands for lets the message pass. Takes no memory.
    pub fn check(&self, message: &Message) -> Verdict
        ensures verdict { IsVerdict self.now message.now result }
        ensures passes { (past : Past) → Stands self.now past
            → ((result ≡ Verdict.Pass) ↔ Passes past message.now) }
    {
        self.check_uncounted::<Brand>(message, Blank::new(1))
    }

    /// The verdict of `check`, with the kept entries that are looked at counted, each look as a step. Takes no
    /// memory.
    pub fn check_counted<L: Ledger>(&self, message: &Message, steps: &mut Steps<L>) -> Verdict
        ensures verdict { IsVerdict self.now message.now result }
        ensures passes { (past : Past) → Stands self.now past
            → ((result ≡ Verdict.Pass) ↔ Passes past message.now) }
        ensures counts { steps.old ≤ steps.new }
        ensures few { TakesFewSteps self.now message.now result (steps.new - steps.old) }
    {
        match *message {
            Message::Block { slot, root } => block_verdict(
                self.floors.block,
                self.blocks.as_slice(),
                slot,
                root,
                steps,
            ),
            Message::Vote {
                source,
                target,
                root,
            } => vote_verdict(
                self.floors.vote,
                self.votes.as_slice(),
                &self.sources,
                source,
                target,
                root,
                steps,
            ),
        }
    }

    /// Whether the message is kept, with its root. Takes no memory.
    pub fn keeps(&self, message: &Message) -> bool
        ensures { IsTrue result ↔ IsKept self.now message.now }
    {
        match *message {
            Message::Block { slot, root } => {
                let entry = BlockEntry {
                    slot,
                    root: Some(root),
                };
                self.blocks.as_slice().binary_search(&entry).is_ok()
            }
            Message::Vote {
                source,
                target,
                root,
            } => {
                let entry = VoteEntry {
                    target,
                    source,
                    root: Some(root),
                };
                self.votes.as_slice().binary_search(&entry).is_ok()
            }
        }
    }

    /// Reserves room for so many more blocks and votes, which `add` needs. The entries stay, whatever the
    /// result.
    ///
    /// # Errors
    ///
    /// `AllocError` where memory was wanted.
    pub fn reserve(&mut self, blocks: usize, votes: usize) -> Result<(), AllocError>
        ensures room { OnOk result ((blocks ≤ self.new.block_room) × (votes ≤ self.new.vote_room)) }
        ensures same { SameParts self.old self.new }
    {
        // A merge sorts its entries behind the place where they go.
        reserve_sparingly(&mut self.blocks, blocks.checked_mul(2).ok_or(AllocError)?)?;
        reserve_sparingly(&mut self.votes, votes.checked_mul(2).ok_or(AllocError)?)?;
        let wanted = self.votes.len().checked_add(votes).ok_or(AllocError)?;
        self.sources.reserve(wanted)
    }

    /// Records a message that `check` lets pass, in the room that was reserved. A repeat changes nothing.
    /// Takes no memory.
    pub fn add(&mut self, message: &Message)
        requires passes { IsVerdict self.old message.now Verdict.Pass }
        requires room { HasRoom self.old message.now }
        ensures added { HasAdded self.old self.new message.now }
        ensures stands { (past : Past) → Stands self.old past → Stands self.new (with_own past message.now) }
    {
        match *message {
            Message::Block { slot, root } => {
                let entry = BlockEntry {
                    slot,
                    root: Some(root),
                };
                let _ = insert_once(&mut self.blocks, entry);
            }
            Message::Vote {
                source,
                target,
                root,
            } => {
                let entry = VoteEntry {
                    target,
                    source,
                    root: Some(root),
                };
                if let Some(place) = insert_once(&mut self.votes, entry) {
                    self.sources.insert(place, self.votes.as_slice());
                }
            }
        }
    }

    /// How many blocks are kept. Takes no memory.
    pub fn block_count(&self) -> usize
        ensures { result ≡ length self.now.blocks }
    {
        self.blocks.len()
    }

    /// How many votes are kept. Takes no memory.
    pub fn vote_count(&self) -> usize
        ensures { result ≡ length self.now.votes }
    {
        self.votes.len()
    }

    /// The kept blocks, in file order, each once. Takes no memory.
    pub fn blocks(&self) -> Kept<'_>
        ensures { entries_left result ≡ map entry.Block self.now.blocks }
    {
        Kept {
            blocks: self.blocks.as_slice(),
            votes: &[],
        }
    }

    /// The kept votes, in file order, each once. Takes no memory.
    pub fn votes(&self) -> Kept<'_>
        ensures { entries_left result ≡ map entry.Vote self.now.votes }
    {
        Kept {
            blocks: &[],
            votes: self.votes.as_slice(),
        }
    }

    /// Merges what one imported file holds for the key: its entries and its floors (EIP-3076, conditions 1 to
    /// 5). After an error the floors and the entries are as they were.
    ///
    /// # Errors
    ///
    /// `AllocError` where memory was wanted.
    pub fn merge_book(&mut self, book: &Book) -> Result<(), AllocError>
        ensures merged { OnOk result (IsMerge self.old book.now self.new) }
        ensures stands { OnOk result ((past : Past) → Stands self.old past
            → Stands self.new (with_book past book.now)) }
        ensures err { OnErr result (SameParts self.old self.new) }
    {
        self.reserve(book.blocks.len(), book.votes.len())?;
        self.merge_reserved(book);
        Ok(())
    }

    /// Merges what one imported file holds for the key, as `merge_book` does, in the room that was reserved.
    /// Takes no memory.
    pub fn merge_reserved(&mut self, book: &Book)
        requires room { (length book.now.blocks ≤ self.old.block_room) × (length book.now.votes ≤ self.old.vote_room) }
        ensures merged { IsMerge self.old book.now self.new }
        ensures stands { (past : Past) → Stands self.old past → Stands self.new (with_book past book.now) }
    {
        let floors = floors_of_book(book);
        self.gather_reserved(floors, book.blocks.as_slice(), book.votes.as_slice());
    }

    /// Joins another record of the key: union of the entries, greatest of each floor, dead entries dropped.
    /// After an error the floors and the entries are as they were.
    ///
    /// # Errors
    ///
    /// `AllocError` where memory was wanted.
    pub fn join(&mut self, other: &Record) -> Result<(), AllocError>
        ensures joined { OnOk result (IsJoin self.old other.now self.new) }
        ensures stands { OnOk result ((p q : Past) → Stands self.old p → Stands other.now q
            → Stands self.new (then_past p q)) }
        ensures err { OnErr result (SameParts self.old self.new) }
    {
        self.reserve(other.blocks.len(), other.votes.len())?;
        self.join_reserved(other);
        Ok(())
    }

    /// Joins another record of the key, as `join` does, in the room that was reserved. Takes no memory.
    pub fn join_reserved(&mut self, other: &Record)
        requires room { (length other.now.blocks ≤ self.old.block_room) × (length other.now.votes ≤ self.old.vote_room) }
        ensures joined { IsJoin self.old other.now self.new }
        ensures stands { (p q : Past) → Stands self.old p → Stands other.now q → Stands self.new (then_past p q) }
    {
        self.gather_reserved(
            other.floors,
            other.blocks.as_slice(),
            other.votes.as_slice(),
        );
    }

    /// Forgets what is not needed any more: merges a book of the blocks at the greatest slot and of one vote
    /// that stands for all. No more passes than before. After an error the floors and the entries are as they
    /// were.
    ///
    /// # Errors
    ///
    /// `AllocError` where memory was wanted.
    pub fn prune(&mut self) -> Result<(), AllocError>
        ensures merged { OnOk result (IsMerge self.old (prune_book self.old) self.new) }
        ensures stands { OnOk result ((past : Past) → Stands self.old past
            → Stands self.new (with_book past (prune_book self.old))) }
        ensures err { OnErr result (SameParts self.old self.new) }
    {
        let (floors, vote) = self.pruning();
        match vote {
            Some(entry) => self.gather(floors, &[], &[entry]),
            None => self.gather(floors, &[], &[]),
        }
    }

    /// The book that is handed over with the key (EIP-3076, an element of `data`): all kept blocks, and all
    /// kept votes where there are no vote floors or the votes are regular, else one vote that stands for all.
    /// What it does not refuse the record lets pass; it may refuse more.
    ///
    /// # Errors
    ///
    /// `AllocError` where memory was wanted.
    pub fn export(&self, alloc: Global) -> Result<Book, AllocError>
        ensures value { IfOk result (λ book. book ≡ export_of self.now) }
        ensures no_more { IfOk result (λ book. (past : Past) (m : Message) → Stands self.now past
            → ¬ (BookRefuses book m) → Passes past m) }
        ensures no_less { IfOk result (λ book. (past : Past) (m : Message) → Stands self.now past
            → IsExportedExactly self.now m → Passes past m → ¬ (BookRefuses book m)) }
    {
        let blocks = Vec::from_slice(alloc, self.blocks.as_slice())?;
        let votes = votes_to_export(alloc, self.floors.vote, self.votes.as_slice())?;
        Ok(Book {
            blocks: Items::from_vec(blocks),
            votes: Items::from_vec(votes),
        })
    }

    /// The book that prunes the record: its blocks at the greatest slot, and one vote that stands for all.
    ///
    /// # Errors
    ///
    /// `AllocError` where memory was wanted.
    pub fn pruning_book(&self, alloc: Global) -> Result<Book, AllocError>
        ensures { IfOk result (λ book. book ≡ prune_book self.now) }
    {
        let votes = self.votes.as_slice();
        let slot = greatest_slot(self.blocks.as_slice());
        let blocks = blocks_to_prune(alloc, slot, self.blocks.as_slice())?;
        let vote = vote_to_prune(greatest_of(self.floors.vote, votes), votes);
        let votes = votes_of(alloc, vote)?;
        Ok(Book {
            blocks: Items::from_vec(blocks),
            votes: Items::from_vec(votes),
        })
    }

    /// The floors. Takes no memory.
    pub fn floors(&self) -> Floors
        ensures value { result ≡ self.now.floors }
        ensures well_kept { IsWellKept self.now.floors self.now.blocks self.now.votes }
    {
        self.floors
    }

    /// The floors and the vote of the book that prunes the record. Its blocks are kept already.
    fn pruning(&self) -> (Floors, Option<VoteEntry>)
        ensures floors { result.0 ≡ book_floors (prune_book self.now) }
        ensures vote { (prune_book self.now).votes ≡ option_to_list result.1 }
    {
        let votes = self.votes.as_slice();
        let block = greatest_slot(self.blocks.as_slice());
        let vote = greatest_of(self.floors.vote, votes);
        (Floors { block, vote }, vote_to_prune(vote, votes))
    }

    /// Gains floors and entries, and drops what is dead.
    fn gather(
        &mut self,
        floors: Floors,
        blocks: &[BlockEntry],
        votes: &[VoteEntry],
    ) -> Result<(), AllocError>
        ensures gathered { OnOk result (Gathers self.old self.new floors blocks.now votes.now) }
        ensures err { OnErr result (SameParts self.old self.new) }
    {
        self.reserve(blocks.len(), votes.len())?;
        self.gather_reserved(floors, blocks, votes);
        Ok(())
    }

    /// Gains floors and entries in the room that was reserved, and drops what is dead.
    fn gather_reserved(&mut self, floors: Floors, blocks: &[BlockEntry], votes: &[VoteEntry])
        requires room { (length blocks.now ≤ self.old.block_room) × (length votes.now ≤ self.old.vote_room) }
        ensures { Gathers self.old self.new floors blocks.now votes.now }
    {
        self.floors = join_floors(&self.floors, &floors);
        gather_blocks(&mut self.blocks, blocks, self.floors);
        gather_votes(&mut self.votes, votes, self.floors);
        self.sources.rebuild(self.votes.as_slice());
    }

    /// The verdict of `check_counted` where nobody reads the count.
    fn check_uncounted<L: Ledger>(&self, message: &Message, blank: Blank) -> Verdict
        requires name { blank.name ≡ L.name }
        requires parts { blank.parts ≡ L.parts }
        requires some { 0 < blank.parts }
        ensures verdict { IsVerdict self.now message.now result }
        ensures passes { (past : Past) → Stands self.now past
            → ((result ≡ Verdict.Pass) ↔ Passes past message.now) }
    {
        let mut steps = Steps::<L>::new(blank);
        self.check_counted(message, &mut steps)
    }
}
