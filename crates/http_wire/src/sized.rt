//! So many bytes of a link.
ghost use Rattle.std.specs.Prelude.{◌≡◌, ◌<◌, ◌≤◌, ◌++◌, ℕ, List, length, IfOk, OnOk, OnErr};
ghost use Rattle.std.specs.Io.KnownBytes.{Consumes, IsAtEnd};
ghost use Rattle.edge_kit.specs.Causes.{Rose};
ghost use Rattle.http_wire.specs.Listening.{OnlyListens};
ghost use Rattle.http_wire.specs.Sizes.{Gains, StopsShort};
ghost use Rattle.http_wire.specs.Steps.{TookAtMost};

use crate::limits::PIECE;
use crate::stop::Stop;
use edge_kit::{Failed, Link};

/// Reads so many bytes, and none after them, to the end of the body. `Stuck` exactly where the link ends
/// before.
pub(crate) fn read_sized<L: Link>(link: &mut L, size: u64, body: &mut Vec<u8>) -> Result<(), Stop>
    ensures ok { OnOk result (Gains (L.left link.old) (L.left link.new) size body.old.items body.new.items) }
    ensures stuck { result ≡ Err Stop.Stuck → StopsShort (L.left link.old) (L.left link.new) size }
    ensures bound { TookAtMost (L.left link.old) (L.left link.new) size }
    ensures fault { result ≡ Err Stop.Link → Rose (L.faults link.old) (L.faults link.new) }
    ensures listens { OnlyListens (L.held link.old) (L.held link.new) (L.coming link.old) (L.coming link.new) (L.faults link.old) (L.faults link.new) }
{
    let mut piece = [0u8; PIECE];
    let mut missing = size;
    'pieces: while missing > 0 {
        let want = missing.min(PIECE as u64) as usize;
        let count = match link.recv(&mut piece[..want]) {
            Ok(count) => count,
            Err(Failed) => return Err(Stop::Link),
        };
        if count == 0 {
            return Err(Stop::Stuck);
        }
        body.extend_from_slice(&piece[..count])?;
        missing -= count as u64;
    }
    Ok(())
}
