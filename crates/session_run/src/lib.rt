//! A session: a request on each line in, an answer on each line out, each line as soon as it is whole.
#![tactic(auto)]

mod bench;
mod laws;
mod lines;
mod next;
mod session;

pub use bench::Bench;
pub use laws::{durable_law, retry_law};
pub use lines::Lines;
pub use next::{LineFault, Next};
pub use session::serve_lines;
