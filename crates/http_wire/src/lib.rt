//! HTTP messages over a link: each is read exactly, byte by byte, and written as its one spelling.
#![tactic(auto)]

mod body;
mod chunked;
mod encoded;
mod expect;
mod field;
mod framing;
mod front;
mod heads;
mod laws;
mod limits;
mod listen;
mod message;
mod parse;
mod plain;
mod read;
mod response;
mod sized;
mod stop;
mod write;

pub use expect::{expects_continue, write_continue};
pub use field::Field;
pub use laws::{
    framing_law, parts_law, read_back_law, refusal_law, request_law, response_law, stuck_law,
};
pub use limits::{BODY_LIMIT, HEAD_LIMIT};
pub use message::{Request, Response, WireFault};
pub use read::{read_request, read_request_body, read_request_head};
pub use response::read_response;
pub use write::{write_request, write_response};
