//! The table of the program's commands and options, as `clap` takes it.
#![tactic(auto)]

mod argument;
mod command;
mod row;

pub use command::{help, merge, program, proxy, rehearse, serve, session, show};
