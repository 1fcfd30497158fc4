//! The command line: what the words ask the program to do, by `clap`.
#![tactic(auto)]

mod fault;
mod fork_text;
mod kept_epochs;
mod lane_count;
mod listen_address;
mod node_timeout;
mod options;
mod path_text;
mod planned;
mod proxy_options;
mod proxying;
mod rehearsal_size;
mod serve_options;
mod serving;
mod token_text;
mod words;

pub use kept_epochs::KeptEpochs;
pub use lane_count::LaneCount;
pub use listen_address::{ListenAddress, ListenHost};
pub use node_timeout::NodeTimeout;
pub use path_text::PathText;
pub use planned::{Plan, ShownText, Usage};
pub use proxy_options::ProxyOptions;
pub use rehearsal_size::RehearsalSize;
pub use serve_options::ServeOptions;
pub use token_text::TokenText;
pub use words::plan;
