//! Custody of keys: taking them in, listing them and giving them up, over any desk and any signer.
#![tactic(auto)]

mod ask;
mod delete;
mod import;
mod keystore;
mod laws;
mod list;
mod status;

pub use delete::{Deletion, delete_keys};
pub use import::{ImportEnd, import_keys};
pub use keystore::key_of_keystore;
pub use laws::{custody_law, once_law};
pub use list::list_keys;
pub use status::{DeskRefusal, KeyStatus, KeyStatuses, Reason};
