//! The signing services of a proxy's lanes.
ghost use Rattle.std.specs.Prelude.{◌≡◌, IfOk, All, vec_len};
ghost use Rattle.client_calls.specs.Seats.{signer_seen};
ghost use Rattle.proxy_run.specs.Ends.{IsMadeOf};

use signer_link::Signer;
use std::alloc::{AllocError, Global};

/// That many other accesses to this signing service, each with counts of its own at 0. The error is want of memory.
pub(crate) fn make_signers<S: Signer + Drop>(
    alloc: Global,
    count: u64,
    signer: &S,
) -> Result<Vec<S>, AllocError>
    ensures count { IfOk result (λ signers. vec_len signers ≡ count) }
    ensures each { IfOk result (λ signers. All (IsMadeOf S.told S.faults S.denials signer.now) signers.items) }
{
    let mut signers = Vec::new(alloc);
    'signers: for _lane in 0..count {
        signers.push(signer.twin(alloc)?)?;
    }
    Ok(signers)
}
