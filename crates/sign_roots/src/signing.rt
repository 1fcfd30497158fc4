//! The root that is signed for an object.
ghost use Rattle.std.specs.Prelude.{◌≡◌};
ghost use Rattle.sign_roots.specs.SigningRoots.{signing_root_of};

use edge_kit::Root;
use phase0_types::{Shaped, SigningData};

/// The root that is signed for an object, from the object's own root and the 32 bytes of the
/// domain it is signed under (consensus-specs, `compute_signing_root`).
#[tactic(auto, unfolding(crate::specs::SigningRoots::signing_root_of))]
pub fn signing_root(object_root: Root, domain: [u8; 32]) -> Root
    ensures { result.0 ≡ signing_root_of object_root.0 domain }
{
    SigningData {
        object_root,
        domain,
    }
    .root()
}
