//! What a validator client is to do in a slot, from the duty answers of beacon nodes.
#![tactic(auto)]

mod aggregators;
mod answer;
mod checks;
mod due;
mod held;
mod law;
mod rows;
mod schedule;
mod slots;

pub use aggregators::is_aggregator;
pub use checks::{DataDiffers, DataMember, check_block, check_data};
pub use due::key_set;
pub use law::schedule_law;
pub use rows::{Duty, DutyRows, Taken};
pub use schedule::Schedule;
pub use slots::{BeforeGenesis, slot_at};
