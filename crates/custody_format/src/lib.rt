//! Custody of keys as texts and JSON: keystores with their passwords, what an import is given, lists of texts and of
//! keys, what became of keys (Keymanager API), and the answers of a session.
#![tactic(auto)]

mod answers;
mod import;
mod keystores;
mod lists;
mod messages;
mod statuses;
mod words;

pub use answers::{busy_value, deleted_value, imported_value, listed_value, not_closing_value};
pub use import::{Import, ImportFault, read_import};
pub use keystores::Keystores;
pub use lists::{keys_of, texts_in};
pub use statuses::statuses_value;
pub use words::{reason_word, state_word, status_word};
