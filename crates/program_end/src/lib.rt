//! How the program ends: its status, and the line that closes the output.
#![tactic(auto)]

mod closing;
mod file_refusal;
mod limit;
mod status;
mod write;

pub use closing::ClosingLine;
pub use file_refusal::FileRefusal;
pub use limit::{FILE_LIMIT, INPUT_LIMIT, KEY_LIMIT, LINE_LIMIT, Limit};
pub use status::Status;
pub use write::{close, finish, write_all};
