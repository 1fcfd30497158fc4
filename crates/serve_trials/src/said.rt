//! What a beacon node of a play says of its chain, which began at second 0.
use crate::scenes::{bad, number_of};
use altair_blocks::AnyBlock;
use edge_kit::{Items, PubKey, Root, Sig};
use node_calls::{Answer, Ask, AttesterRow, ProposerRow, ValidatorRow};
use phase0_blocks::{Attestation, BeaconBlock, BeaconBlockBody};
use phase0_types::{AttestationData, BoundedList, Checkpoint, Eth1Data, Fork};
use std::alloc::{AllocError, Global};
use std::io;

/// How many slots an epoch has.
const SLOTS_PER_EPOCH: u64 = 32;

/// The validators of the chain, each with its index.
const VALIDATORS: [ValidatorRow; 2] = [
    ValidatorRow {
        index: 7,
        pubkey: PubKey([0x11; 48]),
    },
    ValidatorRow {
        index: 8,
        pubkey: PubKey([0x22; 48]),
    },
];

const ZERO: Root = Root([0; 32]);

const FORK: Fork = Fork {
    previous_version: [0; 4],
    current_version: [0; 4],
    epoch: 0,
};

/// What a duty is to make.
#[derive(Clone, Copy, PartialEq, Eq)]
pub enum Made {
    /// A block.
    Block,
    /// A vote.
    Vote,
}

/// A duty of a validator in a slot. `given` is the slot of the block or the data that the node gives for it; without one,
/// what it gives can't be read.
#[derive(Clone, Copy)]
pub struct Due {
    made: Made,
    slot: u64,
    by: ValidatorRow,
    given: Option<u64>,
}

/// Which calls of a node fail, and which of each lane's; and what it says of its chain: the root of its genesis validators,
/// the duties, and the slots whose aggregates are of votes for the data of another one. Duties of one slot stand in the
/// order in which they are done, and what is given for its votes is that of the first of them.
#[derive(Drop)]
pub struct Said {
    failing: Vec<u64>,
    lane_failing: Vec<u64>,
    root: Root,
    due: Vec<Due>,
    differing: Vec<(u64, u64)>,
}

impl Said {
    /// What these items say, with `, ` between them: `fails CALL` and `lane-fails CALL`; `other-chain` for the root G1 in place of G0; of a
    /// duty `block SLOT KEY GIVEN` or `vote SLOT KEY GIVEN`, where KEY is K1 or K2 and GIVEN may be absent; and `aggregate SLOT GIVEN`
    /// where the aggregate of a slot's votes is one for the data of slot GIVEN. Else it is one for the data that was given.
    pub fn read(alloc: Global, items: &str) -> io::Result<Said> {
        let mut said = Said {
            failing: Vec::new(alloc),
            lane_failing: Vec::new(alloc),
            root: ZERO,
            due: Vec::new(alloc),
            differing: Vec::new(alloc),
        };
        for item in items.split(", ") {
            said.take(item)?;
        }
        Ok(said)
    }

    /// Takes an item.
    fn take(&mut self, item: &str) -> io::Result<()> {
        match item.split_once(' ').unwrap_or((item, "")) {
            ("", _) => {}
            ("other-chain", _) => self.root = Root([0x11; 32]),
            ("fails", call) => self.failing.push(number_of(call)?)?,
            ("lane-fails", call) => self.lane_failing.push(number_of(call)?)?,
            ("block", due) => self.due.push(due_of(Made::Block, due)?)?,
            ("vote", due) => self.due.push(due_of(Made::Vote, due)?)?,
            ("aggregate", slots) => self.differing.push(slots_of(slots)?)?,
            _ => return Err(bad()),
        }
        Ok(())
    }

    /// Whether a call of the node, or of one of a lane, fails.
    pub fn fails(&self, is_of_lane: bool, call: u64) -> bool {
        if is_of_lane {
            self.lane_failing.contains(&call)
        } else {
            self.failing.contains(&call)
        }
    }

    /// The slot of what is given for the first of a slot's duties.
    fn given(&self, made: Made, slot: u64) -> Option<u64> {
        for due in self.due.as_slice() {
            if due.made == made && due.slot == slot {
                return due.given;
            }
        }
        None
    }

    /// The slot of the data that the votes in the aggregate of a slot are for.
    fn aggregated(&self, slot: u64) -> Option<u64> {
        for (differing, given) in self.differing.as_slice() {
            if *differing == slot {
                return Some(*given);
            }
        }
        self.given(Made::Vote, slot)
    }
}

/// The two slots of these words.
fn slots_of(words: &str) -> io::Result<(u64, u64)> {
    let (slot, given) = words.split_once(' ').unwrap_or((words, ""));
    Ok((number_of(slot)?, number_of(given)?))
}

/// The duty of these words.
fn due_of(made: Made, words: &str) -> io::Result<Due> {
    let mut words = words.split(' ');
    let slot = number_of(words.next().unwrap_or(""))?;
    let by = validator_of(words.next().unwrap_or(""))?;
    let given = match words.next() {
        Some(word) => Some(number_of(word)?),
        None => None,
    };
    Ok(Due {
        made,
        slot,
        by,
        given,
    })
}

fn validator_of(name: &str) -> io::Result<ValidatorRow> {
    match name {
        "K1" => Ok(VALIDATORS[0]),
        "K2" => Ok(VALIDATORS[1]),
        _ => Err(bad()),
    }
}

/// What a node that says this answers to a question; none where it can't be read.
pub fn answer_to(alloc: Global, said: &Said, ask: &Ask) -> Result<Option<Answer>, AllocError> {
    match ask {
        Ask::Genesis => Ok(Some(Answer::Genesis {
            genesis_time: 0,
            genesis_validators_root: said.root,
        })),
        Ask::Fork => Ok(Some(Answer::Fork(FORK))),
        Ask::Syncing => Ok(Some(Answer::Syncing { is_syncing: false })),
        Ask::Validators { .. } => {
            let rows = Vec::from_slice(alloc, &VALIDATORS)?;
            Ok(Some(Answer::Validators(Items::from_vec(rows))))
        }
        Ask::Proposer { epoch } => Ok(Some(proposers(alloc, *epoch, said)?)),
        Ask::Attester { epoch, .. } => Ok(Some(attesters(alloc, *epoch, said)?)),
        Ask::Data { slot, .. } => Ok(said.given(Made::Vote, *slot).map(data)),
        Ask::Block { slot, .. } => Ok(said.given(Made::Block, *slot).map(|at| block(alloc, at))),
        Ask::Aggregate { slot, .. } => aggregate(alloc, said.aggregated(*slot)),
        Ask::Liveness { .. } => Ok(None),
    }
}

/// Who proposes in an epoch.
fn proposers(alloc: Global, epoch: u64, said: &Said) -> Result<Answer, AllocError> {
    let mut rows = Vec::new(alloc);
    for due in said.due.as_slice() {
        if due.made == Made::Block && due.slot / SLOTS_PER_EPOCH == epoch {
            rows.push(ProposerRow {
                pubkey: due.by.pubkey,
                validator_index: due.by.index,
                slot: due.slot,
            })?;
        }
    }
    Ok(Answer::Proposer {
        dependent_root: ZERO,
        rows: Items::from_vec(rows),
    })
}

/// Who votes in an epoch.
fn attesters(alloc: Global, epoch: u64, said: &Said) -> Result<Answer, AllocError> {
    let mut rows = Vec::new(alloc);
    for due in said.due.as_slice() {
        if due.made == Made::Vote && due.slot / SLOTS_PER_EPOCH == epoch {
            rows.push(AttesterRow {
                pubkey: due.by.pubkey,
                validator_index: due.by.index,
                committee_index: 2,
                committee_length: 128,
                committees_at_slot: 64,
                validator_committee_index: 3,
                slot: due.slot,
            })?;
        }
    }
    Ok(Answer::Attester {
        dependent_root: ZERO,
        rows: Items::from_vec(rows),
    })
}

/// What a committee is to vote in a slot.
fn details(slot: u64) -> AttestationData {
    AttestationData {
        slot,
        index: 2,
        beacon_block_root: ZERO,
        source: Checkpoint {
            epoch: 0,
            root: ZERO,
        },
        target: Checkpoint {
            epoch: slot / SLOTS_PER_EPOCH,
            root: ZERO,
        },
    }
}

/// The data of votes of a slot.
fn data(slot: u64) -> Answer {
    Answer::Data(details(slot))
}

/// The votes of all members of the committee for the data of this slot, where there is a slot.
fn aggregate(alloc: Global, given: Option<u64>) -> Result<Option<Answer>, AllocError> {
    let Some(slot) = given else {
        return Ok(None);
    };
    Ok(Some(Answer::Aggregate(Attestation {
        aggregation_bits: all_members(alloc)?,
        details: details(slot),
        signature: Sig([0; 96]),
    })))
}

/// A set bit for each of the 128 members of the committee.
fn all_members(alloc: Global) -> Result<BoundedList<bool, 2048>, AllocError> {
    let bits = vec![in alloc; true; 128]?;
    match BoundedList::try_new(bits) {
        Ok(bits) => Ok(bits),
        Err(_) => Err(AllocError),
    }
}

/// A block of a slot.
fn block(alloc: Global, slot: u64) -> Answer {
    Answer::Block(AnyBlock::Phase0(BeaconBlock {
        slot,
        proposer_index: 7,
        parent_root: ZERO,
        state_root: ZERO,
        body: empty_body(alloc),
    }))
}

fn empty_body(alloc: Global) -> BeaconBlockBody {
    BeaconBlockBody {
        randao_reveal: Sig([0; 96]),
        eth1_data: Eth1Data {
            deposit_root: ZERO,
            deposit_count: 0,
            block_hash: ZERO,
        },
        graffiti: [0; 32],
        proposer_slashings: no_items(alloc),
        attester_slashings: no_items(alloc),
        attestations: no_items(alloc),
        deposits: no_items(alloc),
        voluntary_exits: no_items(alloc),
    }
}

fn no_items<T: Drop, const LIMIT: usize>(alloc: Global) -> BoundedList<T, LIMIT> {
    match BoundedList::try_new(Vec::new(alloc)) {
        Ok(list) => list,
        Err(_) => unreachable!(),
    }
}
