//! The Keymanager API (ethereum/keymanager-APIs, local key manager) over any desk and any signer: a request is answered,
//! a connection served, and the loop of a client serves connection after connection.
#![tactic(auto)]

mod answering;
mod connections;
mod laws;
mod send;
mod serve;

pub use answering::{answer, reply_behind, response_of};
pub use connections::{Connections, ConnectionsEnd, has_failed, serve_connections};
pub use laws::message_law;
pub use send::send_all;
pub use serve::{
    Served, ask_for_body, drop_link, finish, finish_faulty, outcome, serve_connection,
};
