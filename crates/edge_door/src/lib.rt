//! The system's connections that come in, by the meanings that every layer takes of them. Each opens the real thing at its
//! first call. They are trusted in what they read and write, and tell nothing of it.
#![tactic(auto)]

mod allowance;
mod api;
mod callers;
mod chunk_scan;
mod json_scan;
mod key_outcomes;
mod leaving;
mod lobby;
mod request_front;
mod rest;
mod tcp_conn;
mod tcp_door;
mod waiting;
mod wakes;

pub use callers::Callers;
pub use tcp_conn::TcpConn;
pub use tcp_door::TcpDoor;
