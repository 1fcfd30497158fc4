//! The protection records of many keys: what the past of each key lets pass.
#![tactic(auto)]

mod books;
mod fault;
mod fresh;
mod join;
mod judgement;
mod laws;
mod limit;
mod merge;
mod message;
mod room;

pub use books::{Books, Fresh, Keys};
pub use fault::{BeginFault, MergeFault};
pub use judgement::{Judged, JudgedAll};
pub use laws::{books_join_laws, books_stand_law, key_laws, prepared_law, repeat_law, takes_law};
pub use limit::KEY_LIMIT;
