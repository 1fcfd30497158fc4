//! The containers of phase 0 that hold lists: blocks and what they carry.
#![tactic(auto)]

mod block;
mod lists;
mod operation;
mod signed;
mod vote;

pub use block::{BeaconBlock, BeaconBlockBody};
pub use operation::{AttesterSlashing, Deposit, DepositData, ProposerSlashing, VoluntaryExit};
pub use signed::{Signed, SignedBeaconBlock, SignedBeaconBlockHeader, SignedVoluntaryExit};
pub use vote::{Attestation, IndexedAttestation};
