//! What holds of the aggregates of whole runs of duties: each that is posted rests on what was said and signed before it.
#![tactic(auto)]

mod laws;

pub use laws::{aggregation_law, choice_law, question_law, reason_law};
