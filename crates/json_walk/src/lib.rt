//! JSON values read from the front of a text in one pass: texts, objects and arrays entered, all else
//! passed over, and no value built.
#![tactic(auto)]

mod entering;
mod range;
mod skipping;

pub use entering::{Entered, enter_array, enter_object, read_text_or_null};
pub use skipping::{skip, skip_items};
