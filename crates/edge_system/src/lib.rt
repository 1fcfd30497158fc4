//! The system's streams and files, by the meanings that every layer takes of them, and what is reported of an epoch. Each
//! opens the real thing at its first call. They are trusted in what they read and write, and tell nothing of it.
#![tactic(auto)]

mod adapters;
mod epoch_counts;
mod epoch_notes;
mod file_disk;
mod open_file;
mod reports;
mod streams;
mod told;
mod told_clock;

pub use adapters::{Reading, Writing};
pub use epoch_counts::EpochCounts;
pub use epoch_notes::EpochNotes;
pub use file_disk::FileDisk;
pub use reports::Reports;
pub use streams::{StandardStream, StandardStreams, Standing};
pub use told::counted;
pub use told_clock::{SetBack, ToldClock};
