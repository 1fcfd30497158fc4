//! The desk: it decides whether something may be signed, and keeps what it decided.
#![tactic(auto)]

mod activating;
mod calls;
mod calls_by;
mod closing;
mod compacting;
mod desk;
mod exporting;
mod leave;
mod marking;
mod merging;
mod open;
mod proposing;
mod reads;
mod recording;
mod writing;

pub use desk::Desk;
pub use desk_machine::{
    DeskCall, DeskCalls, DeskEvent, DeskReply, Event, Events, Grant, KeyStanding, KeyStandings,
    KeyState, Keys, MOMENT_LIMIT, OpenGrant, Outcome, Proposals, WatchState,
};
pub use open::OpenFault;
