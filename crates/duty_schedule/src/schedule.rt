//! The duty answers that stand, and what is due by them.
ghost use Rattle.std.specs.Prelude.{◌≡◌, ℕ, max, map, List, [], ◌∷◌, ◌++◌, IfOk};
ghost use Rattle.duty_schedule.specs.Answers.{TakenAnswer, taken_answer, verdict};
ghost use Rattle.duty_schedule.specs.Due.{IsDue};
ghost use Rattle.duty_schedule.specs.Holding.{MovesOn};
ghost use Rattle.duty_schedule.specs.Standing.{Stands};

use crate::answer::{Basis, DutyAnswer};
use crate::due::{due_rows, key_set};
use crate::held::HeldAnswers;
use crate::rows::{Duty, DutyRows, Taken};
use crate::slots::epoch_of;
use edge_kit::{Items, PubKey, Root};
use node_calls::{AttesterRow, ProposerRow};
use std::alloc::{AllocError, Global};

/// The duty answers that stand, of the newest epoch that was answered for and of the one before it. It holds at
/// most one of each kind and epoch, and so four.
#[derive(Drop)]
pub struct Schedule {
    alloc: Global,
    newest_epoch: u64,
    proposers: HeldAnswers<ProposerRow>,
    attesters: HeldAnswers<AttesterRow>,
}

impl Schedule {
    /// With no answer yet. Takes no memory.
    pub fn new(alloc: Global) -> Schedule
        ensures { Stands result [] }
    {
        Schedule {
            alloc,
            newest_epoch: 0,
            proposers: HeldAnswers::new(),
            attesters: HeldAnswers::new(),
        }
    }

    /// Takes an answer of the duties of an epoch. `asked` are the validator indices that the question named, none
    /// for proposers, who are asked for without. What is held of its kind and epoch stays where it has this
    /// dependent root and these indices; else this answer is held from now on. Answers of epochs older than the
    /// one before the newest are dropped. Takes no memory.
    pub fn take_answer(
        &mut self,
        epoch: u64,
        asked: Items<u64>,
        dependent_root: Root,
        rows: DutyRows,
    ) -> Taken
        ensures stands { (answers : List TakenAnswer) → Stands self.old answers
            → Stands self.new (answers ++ taken_answer epoch asked dependent_root rows ∷ []) }
        ensures taken { (answers : List TakenAnswer) → Stands self.old answers
            → result ≡ verdict answers (taken_answer epoch asked dependent_root rows) }
    {
        self.move_on(epoch);
        let basis = Basis {
            asked,
            dependent_root,
        };
        let newest = self.newest_epoch;
        match rows {
            DutyRows::Proposer(rows) => {
                let answer = DutyAnswer { basis, rows };
                self.proposers.take(newest, epoch, answer)
            }
            DutyRows::Attester(rows) => {
                let answer = DutyAnswer { basis, rows };
                self.attesters.take(newest, epoch, answer)
            }
        }
    }

    /// What is due in a slot for validators of these keys, in any order: of the answers that are held of the
    /// slot's epoch, the rows at this slot with one of these keys. Blocks come first, then votes, each by key
    /// and then as they stand in their answer. The error is want of memory.
    pub fn due(&self, slot: u64, active: &[PubKey]) -> Result<Vec<Duty>, AllocError>
        ensures { IfOk result (λ duties. (answers : List TakenAnswer) → Stands self.now answers
            → IsDue answers slot active.now duties.items) }
    {
        let epoch = epoch_of(slot);
        let active = key_set(self.alloc, active)?;
        let proposers = self.proposers.rows(self.newest_epoch, epoch);
        let attesters = self.attesters.rows(self.newest_epoch, epoch);
        let blocks = due_rows(self.alloc, proposers, slot, &active)?;
        let votes = due_rows(self.alloc, attesters, slot, &active)?;
        duties(self.alloc, blocks.as_slice(), votes.as_slice())
    }

    /// Goes on to an epoch, if it is newer than any before.
    fn move_on(&mut self, epoch: u64)
        ensures newest { self.new.newest_epoch ≡ max self.old.newest_epoch epoch }
        ensures proposers { MovesOn self.old.proposers self.old.newest_epoch self.new.proposers self.new.newest_epoch }
        ensures attesters { MovesOn self.old.attesters self.old.newest_epoch self.new.attesters self.new.newest_epoch }
    {
        let later = self.newest_epoch.max(epoch);
        self.proposers.move_on(self.newest_epoch, later);
        self.attesters.move_on(self.newest_epoch, later);
        self.newest_epoch = later;
    }
}

/// Blocks, and then votes. The error is want of memory.
fn duties(
    alloc: Global,
    blocks: &[ProposerRow],
    votes: &[AttesterRow],
) -> Result<Vec<Duty>, AllocError>
    ensures { IfOk result (λ duties. duties.items ≡ map Duty.Block blocks.now ++ map Duty.Vote votes.now) }
{
    blocks
        .iter()
        .map(|row| Duty::Block(*row))
        .chain(votes.iter().map(|row| Duty::Vote(*row)))
        .collect(alloc)
}
