//! The top call: words in, status out, over whatever stands for the outside.
#![tactic(auto)]

mod ending;
mod proxy;
mod rehearse;
mod run;
mod serve;
mod server;
mod session;
mod usage;

pub use command_line::{Plan, ShownText, Usage, plan};
pub use ending::Ending;
pub use journal_commands::{run_merge, run_show};
pub use program_end::{Limit, Status};
pub use rehearse::run_rehearse;
pub use run::run_validator;
pub use serve_run::LaneEnd;
pub use session::run_session;
