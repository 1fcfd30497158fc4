//! What a crash between two syncs may leave.
ghost use Rattle.std.specs.Prelude.{List, ℕ};
ghost use Rattle.edge_kit.specs.Images.{Change, LeftBy, IsImage};

/// The law of a disk's images. Between two syncs each written range, and everything from the old end on, may
/// hold any bytes, the length may be any from the shortest to the longest since the last sync, and bytes
/// outside stay; the old end is the shortest length. These are exactly the bytes that the steps of the calls
/// allow, one after the other.
pub fn images_law()
    ensures only { (synced : List ℕ) (changes : List Change) (c : List ℕ) → LeftBy synced changes c → IsImage synced changes c }
    ensures each { (synced : List ℕ) (changes : List Change) (c : List ℕ) → IsImage synced changes c → LeftBy synced changes c }
{}
