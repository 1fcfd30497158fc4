//! The system's sockets, by the meanings that every layer takes of them. Each opens the real thing at its first call. They
//! are trusted in what they read and write, and tell nothing of it.
#![tactic(auto)]

mod address;
mod heard;
mod round;
mod silence;
mod span;
mod tcp_link;
mod tcp_stream;

pub use address::Address;
pub use heard::{Heard, Visible};
pub use silence::Peers;
pub use span::Span;
pub use tcp_link::TcpLink;
pub use tcp_stream::{LongRequests, Timed, is_later, send_over, write_now};
