//! A whole input, up to a limit.
ghost use Rattle.std.specs.Prelude.{◌≡◌, ◌≢◌, ◌+◌, ◌<◌, ◌≤◌, length, IfOk, IfErr};
ghost use Rattle.std.specs.Io.KnownBytes.{Consumes, IsAtEnd};
ghost use Rattle.journal_commands.specs.Whole.{ReadsMore, WholeStops, MoreStops, WithinLimit};

use edge_kit::{Failed, Source};
use std::alloc::{AllocError, Global};
use thiserror::Error;

/// How many bytes are asked of the input at once.
const PIECE: usize = 65_536;

/// Why an input was not read to its end.
#[derive(Clone, Copy, PartialEq, Eq, Debug, Error)]
pub enum WholeFault {
    /// The input failed; its count of faults rose.
    #[error("the input cannot be read")]
    Read,
    /// The input has more bytes than the limit.
    #[error("the input is too long")]
    TooLong,
    /// Memory ran out.
    #[error("out of memory")]
    OutOfMemory,
}

impl From<AllocError> for WholeFault {
    ghost use Rattle.journal_commands.specs.declared.whole.WholeFault.TheVariants.{OutOfMemory};

    ghost from_gives = { λ _ e. e ≡ OutOfMemory };

    fn from(_error: AllocError) -> WholeFault {
        WholeFault::OutOfMemory
    }
}

/// Reads an input to its end, in pieces of 65,536 bytes, and gives all its bytes. At most one piece more than
/// `limit` bytes is read.
///
/// # Errors
///
/// `Read` only where the input's count of faults rose in this call, `TooLong` exactly where the input has more
/// than `limit` bytes (at least one more than `limit` was read), and `OutOfMemory` where memory was wanted.
/// What was read until then is gone.
pub fn read_whole<I: Source>(
    alloc: Global,
    input: &mut I,
    limit: u64,
) -> Result<Vec<u8>, WholeFault>
    ensures whole { IfOk result (λ bytes. Consumes (I.left input.old) (I.left input.new) bytes.items × IsAtEnd (I.left input.new) × (length bytes.items ≤ limit)) }
    ensures fault { IfErr result (λ f. WholeStops f limit (I.left input.old) (I.left input.new) (I.faults input.old) (I.faults input.new)) }
    ensures within { WithinLimit limit (I.left input.old) → result ≢ Err WholeFault.TooLong }
    ensures later { I.faults input.old ≤ I.faults input.new }
{
    let mut bytes = Vec::new(alloc);
    let mut piece = new_piece(alloc)?;
    'reads: for _ in 0..u64::MAX {
        match read_more(input, &mut piece, &mut bytes) {
            Ok(0) => return Ok(bytes),
            Ok(_) => {}
            Err(fault) => return Err(fault),
        }
        if bytes.len() as u64 > limit {
            return Err(WholeFault::TooLong);
        }
    }
    unreachable!()
}

/// Room for one piece.
fn new_piece(alloc: Global) -> Result<Vec<u8>, AllocError>
    ensures { IfOk result (λ piece. 0 < length piece.items) }
{
    vec![in alloc; 0u8; PIECE]
}

/// Reads one piece more after the bytes, and answers how many. 0 is the end. Where it fails nothing was read.
fn read_more<I: Source>(
    input: &mut I,
    piece: &mut Vec<u8>,
    bytes: &mut Vec<u8>,
) -> Result<usize, WholeFault>
    requires { 0 < length piece.old.items }
    ensures piece { 0 < length piece.new.items }
    ensures more { ReadsMore (I.left input.old) (I.left input.new) bytes.old.items bytes.new.items }
    ensures count { IfOk result (λ count. length bytes.new.items ≡ length bytes.old.items + count) }
    ensures end { IfOk result (λ count. count ≡ 0 → IsAtEnd (I.left input.new)) }
    ensures fault { IfErr result (λ f. MoreStops f (I.faults input.old) (I.faults input.new)) }
    ensures later { I.faults input.old ≤ I.faults input.new }
{
    bytes.reserve(piece.len())?;
    let count = match input.read(piece.as_mut_slice()) {
        Ok(count) => count,
        Err(Failed) => return Err(WholeFault::Read),
    };
    let _ = bytes.extend_from_slice(&piece[..count]);
    Ok(count)
}
