//! Tests that are no lines of a program: of two threads at one counter and at one desk, and of the system's sockets. What
//! the two threads made of the counter is proved of its function, by what the lock promises.
#![tactic(auto)]

#[cfg(test)]
mod beside;
mod counter;
mod day;
#[cfg(test)]
mod files;
#[cfg(test)]
mod locks;
#[cfg(test)]
mod signing_door;
#[cfg(test)]
mod sockets;

pub use counter::Counter;
pub use day::add_both;
