//! A lane.
ghost use Rattle.std.specs.Prelude.{◌≡◌};

use duty_plans::Ended;
use node_fallback::Nodes;

/// What the duties of one lane are done with: a desk, a signing service and beacon nodes of its own.
#[derive(Drop)]
pub struct Lane<K, S, N> {
    /// What its grants are asked of.
    pub desk: K,
    /// What signs for it.
    pub signer: S,
    /// What its duties are posted to.
    pub nodes: Nodes<N>,
    /// How the tasks that it did last ended; none where memory ran out.
    pub(crate) ends: Option<Vec<Ended>>,
}

impl<K, S, N> Lane<K, S, N> {
    /// A lane that has done nothing yet. Takes no memory.
    pub fn new(desk: K, signer: S, nodes: Nodes<N>) -> Self
        ensures { (result.desk ≡ desk) × (result.signer ≡ signer) × (result.nodes ≡ nodes) }
    {
        Lane {
            desk,
            signer,
            nodes,
            ends: None,
        }
    }

    /// What it was made of. Takes no memory.
    pub fn into_parts(self) -> (K, S, Nodes<N>)
        ensures { result ≡ (self.desk, self.signer, self.nodes) }
    {
        (self.desk, self.signer, self.nodes)
    }
}
