//! A disk: bytes that a crash may leave otherwise than they were written, until they are synced.
ghost use Rattle.std.specs.Prelude.{◌≡◌, ◌≤◌, List, ℕ, length, take, IfOk, OnOk};
ghost use Rattle.edge_kit.specs.Causes.{HasCause};
ghost use Rattle.edge_kit.specs.Disks.{Alike, Follows, Torn, Cut, Same, overwrite, Elapses, Holds, ReadsAt};

use crate::traits::Failed;

/// A disk of one file. What a read sees and what a crash may leave is optional: where the disk doesn't tell,
/// nothing meets `shows` and `leaves`. Its faults are counted, and each call answers `Failed` only where the
/// count rose in it.
pub trait Disk {
    /// What a read sees: one content, or none where the disk doesn't tell.
    ghost shows: { Self → List ℕ → Type 0 };

    /// The moment, as a number that doesn't fall.
    ghost moment: { Self → ℕ };

    /// What a crash at a moment up to now might have left.
    ghost leaves: { Self → ℕ → List ℕ → Type 0 };

    /// How often the disk has failed.
    ghost faults: { Self → ℕ };

    /// How many bytes there are. Takes no memory.
    fn len(&mut self) -> Result<u64, Failed>
        ensures len { IfOk result (λ n. (c : List ℕ) → shows self.old c → n ≡ length c) }
        ensures shows { Alike (shows self.old) (shows self.new) }
        ensures time { Elapses Same (moment self.old) (moment self.new) (leaves self.old) (leaves self.new) }
        ensures cause { HasCause (faults self.old) (faults self.new) result };

    /// Fills the buffer up to the disk's end, and gives the number of bytes. What it sees is one of the
    /// contents that a crash now may leave. Takes no memory.
    fn read(&mut self, at: u64, buf: &mut [u8]) -> Result<usize, Failed>
        ensures bound { IfOk result (λ n. n ≤ length buf.new) }
        ensures bytes { IfOk result (λ n. (c : List ℕ) → shows self.old c → ReadsAt c at buf.new n) }
        ensures image { OnOk result ((c : List ℕ) → shows self.old c → leaves self.old (moment self.old) c) }
        ensures shows { Alike (shows self.old) (shows self.new) }
        ensures time { Elapses Same (moment self.old) (moment self.new) (leaves self.old) (leaves self.new) }
        ensures cause { HasCause (faults self.old) (faults self.new) result };

    /// Writes over what is there and past the end, where zeros fill a gap. Until a sync a crash may leave any
    /// bytes in the range and from the old end on, also where the call failed.
    fn write_at(&mut self, at: u64, bytes: &[u8]) -> Result<(), Failed>
        ensures shows { OnOk result (Follows (λ d c. c ≡ overwrite at bytes.now d) (shows self.old) (shows self.new)) }
        ensures time { Elapses (Torn at (length bytes.now)) (moment self.old) (moment self.new) (leaves self.old) (leaves self.new) }
        ensures cause { HasCause (faults self.old) (faults self.new) result };

    /// Cuts the disk to a length; a shorter disk stays. Until a sync a crash may leave any length between,
    /// and any bytes behind the new end, also where the call failed.
    fn cut(&mut self, len: u64) -> Result<(), Failed>
        ensures shows { OnOk result (Follows (λ d c. c ≡ take len d) (shows self.old) (shows self.new)) }
        ensures time { Elapses (Cut len) (moment self.old) (moment self.new) (leaves self.old) (leaves self.new) }
        ensures cause { HasCause (faults self.old) (faults self.new) result };

    /// Syncs: once it answered `Ok`, a crash leaves what a read sees. Takes no memory.
    fn sync(&mut self) -> Result<(), Failed>
        ensures durable { OnOk result ((c : List ℕ) → leaves self.new (moment self.new) c → shows self.old c) }
        ensures shows { Alike (shows self.old) (shows self.new) }
        ensures time { Elapses Same (moment self.old) (moment self.new) (leaves self.old) (leaves self.new) }
        ensures cause { HasCause (faults self.old) (faults self.new) result };
}

/// The disks that a client is handed.
#[derive(Drop)]
pub struct Disks<D> {
    /// The disk of the journal.
    pub first: D,
    /// A disk beside it.
    pub second: D,
}

/// Writes, and syncs: once it answered `Ok`, a crash leaves what a read sees.
pub fn write_synced<D: Disk>(disk: &mut D, at: u64, bytes: &[u8]) -> Result<(), Failed>
    ensures done { OnOk result (Holds D.shows D.moment D.leaves disk.new (λ c. (d : List ℕ) × D.shows disk.old d × (c ≡ overwrite at bytes.now d))) }
    ensures time { Elapses (Torn at (length bytes.now)) (D.moment disk.old) (D.moment disk.new) (D.leaves disk.old) (D.leaves disk.new) }
    ensures cause { HasCause (D.faults disk.old) (D.faults disk.new) result }
{
    disk.write_at(at, bytes)?;
    disk.sync()?;
    Ok(())
}
