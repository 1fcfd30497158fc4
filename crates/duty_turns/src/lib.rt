//! The turns of a validator's duty loop: when they are, what they call step by step, and what they print.
#![tactic(auto)]

mod held;
mod lines;
mod sizes;
mod times;

pub use held::{DutyEnd, Held};
pub use lines::{aggregate_lines, duty_lines, none_line};
pub use sizes::is_worth_compacting;
pub use times::{
    again_start, aggregates_start, epoch_of, is_first_slot, is_missed, next_slot, slot_of,
    slot_start, votes_start,
};
