//! What the system has not taken yet of a reply.
use edge_sockets::{Timed, send_over, write_now};
use std::alloc::{AllocError, Global};
use std::io;
use std::io::{Read, Write};
use std::net::OpenStream;
use std::rt::Clock;

/// Bytes that are to be sent, in their order.
#[derive(Drop)]
pub(crate) struct Rest {
    bytes: Vec<u8>,
    /// How many of them were sent.
    sent: usize,
}

impl Rest {
    // Nothing is to be sent. Takes no memory.
    pub(crate) fn new(alloc: Global) -> Self {
        Rest {
            bytes: Vec::new(alloc),
            sent: 0,
        }
    }

    // What is to be sent.
    fn left(&self) -> &[u8] {
        self.bytes.get(self.sent..).unwrap_or(&[])
    }

    // Whether nothing is to be sent.
    pub(crate) fn is_empty(&self) -> bool {
        self.left().is_empty()
    }

    // Adds a piece to what is to be sent. Where memory is wanted for it, it is not added.
    pub(crate) fn keep(&mut self, piece: &[u8]) -> Result<(), AllocError> {
        if self.is_empty() {
            self.bytes.clear();
            self.sent = 0;
        }
        self.bytes.extend_from_slice(piece)
    }

    // Sends what the system takes at once, and says how many bytes it took.
    pub(crate) fn send<W: Write>(&mut self, stream: &mut W) -> io::Result<usize> {
        let count = write_now(stream, self.left())?;
        self.sent = self.sent.saturating_add(count);
        Ok(count)
    }

    // Sends all of it within the connection's span, and waits for that.
    pub(crate) fn send_all<S: Read + Write + OpenStream + Drop, C: Clock>(
        &mut self,
        stream: &mut Option<Timed<S>>,
        clock: &C,
    ) -> io::Result<()> {
        'pieces: for _ in 0..u64::MAX {
            if self.is_empty() {
                return Ok(());
            }
            let count = send_over(stream, clock, self.left())?;
            self.sent = self.sent.saturating_add(count);
        }
        Ok(())
    }
}
