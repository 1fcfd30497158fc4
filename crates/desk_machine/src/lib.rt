//! The desk as a machine: what it is asked, what it replies, and what becomes of its state. It stands on no disk.
#![tactic(auto)]

mod call;
mod desk_calls;
mod event;
mod grant;
mod laws;
mod open_grant;
mod open_grants;
mod watches;

pub use call::{DeskCall, DeskReply, KeyStanding, KeyStandings, Keys, Outcome, Proposals};
pub use desk_calls::DeskCalls;
pub use doppel_watch::{MOMENT_LIMIT, WatchState};
pub use event::{DeskEvent, Event, Events};
pub use grant::Grant;
pub use laws::{machine_laws, snapshot_law};
pub use open_grant::OpenGrant;
pub use open_grants::OpenGrants;
pub use record_replay::KeyState;
pub use watches::Watches;
