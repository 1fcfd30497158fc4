//! The members of JSON objects: read as what they should be, and put into an object that is built.
#![tactic(auto)]

mod members;
mod object;

pub use members::{bytes_in, flag_in, items_in, json_of, number_in, text_in};
pub use object::Object;
