//! What a number draws.
ghost use Rattle.std.specs.Prelude.{◌≡◌, ◌<◌, ◌^◌, ℕ};
ghost use Rattle.rehearsal.specs.Draws.{act_of, block_of, crash_of, drawn, key_of, next, root_of, stop_of, vote_of};
ghost use Rattle.rehearsal.specs.Plays.{IsPlayable};

use edge_kit::{Crash, PubKey, Root};
use slash_defs::Message;

/// What is done with a key, at the client that has it.
#[derive(Clone, Copy, PartialEq, Eq, Debug)]
pub enum Act {
    /// A block or a vote is proposed, and sent where it is granted.
    Propose(Message),
    /// The key is closed, and handed over to this client.
    HandOver {
        to: u64,
    },
    /// The client stops between calls of its desk, and starts again.
    Stop,
    /// The client stops in the proposal of a message at this call of its disk, the first being 1, which makes this of
    /// the bytes that are not synced, and starts again.
    StopWithin {
        message: Message,
        disk_call: u64,
        crash: Crash,
    },
    /// The record of the key is pruned.
    Prune,
}

/// Draws a number of 31 bits.
pub(crate) fn draw(state: &mut u64) -> u64
    ensures state { state.new ≡ next state.old }
    ensures drawn { result ≡ drawn (next state.old) }
    ensures bound { result < 2 ^ 31 }
{
    *state = state
        .wrapping_mul(6_364_136_223_846_793_005)
        .wrapping_add(1_442_695_040_888_963_407);
    *state >> 33
}

/// The key at a place.
pub(crate) fn key_at(place: u8) -> PubKey
    requires { place < 255 }
    ensures { result ≡ key_of place }
{
    PubKey([place + 1; 48])
}

/// The root of 32 such bytes.
pub(crate) fn root_at(byte: u8) -> Root
    ensures { result ≡ root_of byte }
{
    Root([byte; 32])
}

/// The vote that a draw gives in an epoch.
fn vote(epoch: u64, v: u64) -> Message
    requires { epoch < 2 ^ 32 }
    ensures { result ≡ vote_of epoch v }
{
    Message::Vote {
        source: epoch.saturating_sub(v % 3),
        target: epoch + v / 3 % 3,
        root: root_at((v / 9 % 4) as u8),
    }
}

/// The block that a draw gives in an epoch.
fn block(epoch: u64, v: u64) -> Message
    requires { epoch < 2 ^ 32 }
    ensures { result ≡ block_of epoch v }
{
    Message::Block {
        slot: 32 * epoch + v % 4,
        root: root_at((v / 4 % 3) as u8),
    }
}

/// The stop that a draw gives in an epoch.
fn stop(epoch: u64, v: u64) -> Act
    requires { epoch < 2 ^ 32 }
    ensures stop { result ≡ stop_of epoch v }
    ensures playable { (clients : ℕ) → IsPlayable clients result }
{
    if v % 2 == 0 {
        return Act::Stop;
    }
    Act::StopWithin {
        message: Message::Vote {
            source: epoch,
            target: epoch + 1,
            root: root_at(0),
        },
        disk_call: 1 + v / 2 % 4,
        crash: crash_for(v),
    }
}

/// What becomes of the bytes that are not synced.
fn crash_for(v: u64) -> Crash
    ensures { result ≡ crash_of v }
{
    if v / 8 % 2 == 0 {
        Crash::Written
    } else {
        Crash::Before
    }
}

/// The act that two draws give in an epoch.
pub(crate) fn act_for(clients: u64, epoch: u64, a: u64, v: u64) -> Act
    requires clients { 0 < clients }
    requires epoch { epoch < 2 ^ 32 }
    ensures act { result ≡ act_of clients epoch a v }
    ensures playable { IsPlayable clients result }
{
    if a < 10 {
        Act::Propose(vote(epoch, v))
    } else if a < 12 {
        Act::Propose(block(epoch, v))
    } else if a < 14 {
        Act::HandOver { to: v % clients }
    } else if a == 14 {
        stop(epoch, v)
    } else {
        Act::Prune
    }
}
