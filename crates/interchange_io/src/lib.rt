//! EIP-3076 interchange files of format version 5, read and written.
#![tactic(auto)]

mod books;
mod entries;
mod fault;
mod gathered;
mod halt;
mod in_order;
mod laws;
mod member;
mod metadata;
mod reading;
mod refusal;
mod sorted;
mod texts;
mod writing;

pub use fault::{ReadFault, VersionText};
pub use in_order::in_written_order;
pub use laws::{files_list_once, united_books, written_order};
pub use member::Member;
pub use reading::{FILE_LIMIT, read};
pub use writing::{write, write_text};
