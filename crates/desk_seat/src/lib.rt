//! A desk that threads share, and seats at it, which take the desk's calls by turns; and what holds of grants and closings
//! in its one history.
#![tactic(auto)]

mod laws;
mod lent_desk;
mod seated;
mod sharing;

pub use laws::{among_law, close_law, span_law};
pub use lent_desk::LentDesk;
pub use seated::Seated;
pub use sharing::{lend, take_back};
