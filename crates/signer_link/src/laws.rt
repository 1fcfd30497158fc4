//! Laws of what is asked of the service.
ghost use Rattle.signer_link.specs.Plain.{IsPlain};
ghost use Rattle.signer_link.specs.declared.request.PlainRequest.{PlainRequest};

/// What is no block and no vote is signed under no proposer's and no attester's domain.
pub fn plain_law()
    ensures { (q : PlainRequest) → IsPlain q }
{}
