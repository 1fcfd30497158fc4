//! A disk in memory, which keeps its writes, cuts and syncs, fails where it is told to, and gives what a
//! crash may leave.
ghost use Rattle.std.specs.Prelude.{◌≡◌, ◌<◌, ◌≤◌, ◌+◌, ◌-◌, [], ◌∷◌, ◌++◌, ◌^◌, List, ℕ, length, take, drop, true, is_ok, OnOk, OnErr, IfOk, Err, min, vec_len, vec_capacity};
ghost use Rattle.std.specs.List.{list_all};
ghost use Rattle.edge_kit.specs.Calls.{IsBegun, IsFailed};
ghost use Rattle.edge_kit.specs.Causes.{next_count};
ghost use Rattle.edge_kit.specs.Disks.{overwrite, Alike, Elapses, Follows, Same, Torn, Cut, ReadsAt};
ghost use Rattle.edge_kit.specs.MemDisks.{is_change, after, crashed_after, content, crashed, LeavesAt, turn_of, is_working, GoesBy};
ghost use Rattle.edge_kit.specs.declared.mem_disk.DiskStep.TheVariants.{Wrote, Shortened, Synced};

use crate::calls::Calls;
use crate::disk::Disk;
use crate::traits::Failed;
use std::alloc::{AllocError, Global};

/// A change of a disk in memory, or a sync.
#[derive(Drop)]
pub enum DiskStep {
    /// A write of these bytes at an offset.
    Wrote(u64, Vec<u8>),
    /// A cut to a length.
    Shortened(u64),
    /// A sync.
    Synced,
}

/// What a crash makes of the changes that aren't synced yet.
#[derive(Clone, Copy, Debug, PartialEq, Eq)]
pub enum Crash {
    /// Each stands as it was made.
    Written,
    /// None was made.
    Before,
    /// Each write has the first half of its bytes, rounded down, and no cut was made.
    Torn,
}

/// How a call goes on a disk in memory: it works, the disk stops at it, or it fails and does nothing.
#[derive(Clone, Copy, Debug, PartialEq, Eq)]
enum Turn {
    /// It works.
    Works,
    /// The disk stops at it.
    Stops,
    /// It fails, and nothing else happens.
    Fails,
}

/// A disk in memory, which tells what it shows and what a crash may leave. Calls are numbered from 0 in the
/// order they come.
#[derive(Drop)]
pub struct MemDisk {
    alloc: Global,
    first: Vec<u8>,
    held: Vec<u8>,
    steps: Vec<DiskStep>,
    synced: usize,
    calls: Calls,
    stop: Option<u64>,
    lacks: u64,
    ghost current: { held.items ≡ content first.items steps.items },
    ghost within: { synced ≤ length steps.items },
    ghost durable: { (c : List ℕ) → LeavesAt first.items steps.items synced c → c ≡ content first.items (take synced steps.items) },
    ghost changes: { list_all is_change (drop synced steps.items) ≡ true },
    ghost room: { synced < length steps.items → vec_len steps < vec_capacity steps },
}

impl MemDisk {
    ghost use Rattle.edge_kit.specs.Calls.{AreNew};
    ghost use Rattle.edge_kit.specs.OnMemDisks.{first_bytes, disk_bytes, disk_steps, disk_calls, disk_stop, disk_lacks, unsynced, image_of, Leaves, HoldsSame};

    /// A disk of these bytes, all of them synced. The calls of these numbers fail. At the call `stop` it
    /// stops: a write or cut is still made and not synced, a sync isn't done; that call fails, and each later
    /// one does.
    pub fn new(
        alloc: Global,
        bytes: Vec<u8>,
        failing: Vec<u64>,
        stop: Option<u64>,
    ) -> Result<Self, AllocError>
        ensures bytes { IfOk result (λ d. disk_bytes d ≡ bytes.items) }
        ensures first { IfOk result (λ d. first_bytes d ≡ bytes.items) }
        ensures synced { IfOk result (λ d. (disk_steps d ≡ []) × (unsynced d ≡ [])) }
        ensures calls { IfOk result (λ d. AreNew (disk_calls d) failing.items) }
        ensures stop { IfOk result (λ d. disk_stop d ≡ stop) }
        ensures lacks { IfOk result (λ d. disk_lacks d ≡ 0) }
    {
        Ok(MemDisk {
            alloc,
            first: bytes.to_vec(alloc)?,
            held: bytes,
            steps: Vec::new(alloc),
            synced: 0,
            calls: Calls::new(failing),
            stop,
            lacks: 0,
        })
    }

    /// The bytes that a read sees.
    pub fn bytes(&self) -> &[u8]
        ensures { result.now ≡ disk_bytes self.now }
    {
        &self.held
    }

    /// Its writes, cuts and syncs in order. A sync with nothing changed since the last one isn't among them.
    pub fn steps(&self) -> &[DiskStep]
        ensures { result.now ≡ disk_steps self.now }
    {
        &self.steps
    }

    /// How many calls have come.
    pub fn calls(&self) -> u64
        ensures { result ≡ (disk_calls self.now).count }
    {
        self.calls.count
    }

    /// At how many writes and cuts memory ran out. Each of these failed, and nothing was changed.
    pub fn lacks(&self) -> u64
        ensures { result ≡ disk_lacks self.now }
    {
        self.lacks
    }

    /// From here on it stops at the call of this number, or at none.
    pub fn stop_at(&mut self, stop: Option<u64>)
        ensures stop { disk_stop self.new ≡ stop }
        ensures holds { HoldsSame self.old self.new }
        ensures calls { disk_calls self.new ≡ disk_calls self.old }
        ensures lacks { disk_lacks self.new ≡ disk_lacks self.old }
    {
        self.stop = stop;
    }

    /// The bytes that a crash now leaves: those that it makes of the changes since the last sync.
    pub fn image(&self, alloc: Global, crash: Crash) -> Result<Vec<u8>, AllocError>
        ensures exact { IfOk result (λ image. image.items ≡ image_of crash self.now) }
        ensures left { IfOk result (λ image. Leaves self.now image.items) }
    {
        let (done, unsynced) = self.steps.split_at(self.synced);
        let mut image = self.first.to_vec(alloc)?;
        crash_all(&mut image, done, Crash::Written)?;
        crash_all(&mut image, unsynced, crash)?;
        Ok(image)
    }
}

// How the next call goes, which is counted.
fn next_turn(calls: &mut Calls, stop: Option<u64>) -> Turn
    ensures turn { result ≡ turn_of calls.old.count calls.old.failing.items stop }
    ensures begun { IsBegun calls.old calls.new }
{
    let call = calls.count;
    let is_listed = calls.begin();
    match stop {
        Some(stop) if call == stop => Turn::Stops,
        Some(stop) if stop < call => Turn::Fails,
        _ if is_listed => Turn::Fails,
        _ => Turn::Works,
    }
}

// Counts a change that fails for want of memory.
fn lack(calls: &mut Calls, lacks: &mut u64) -> Failed
    ensures lacks { lacks.new ≡ next_count lacks.old }
    ensures calls { IsFailed calls.old calls.new }
{
    *lacks = lacks.saturating_add(1);
    calls.fail()
}

// Writes bytes over the content.
fn put(content: &mut Vec<u8>, at: u64, bytes: &[u8]) -> Result<(), AllocError>
    ensures ok { OnOk result (content.new.items ≡ overwrite at bytes.now content.old.items) }
    ensures err { OnErr result (content.new.items ≡ content.old.items) }
{
    if bytes.is_empty() {
        return Ok(());
    }
    let from = at as usize;
    let Some(end) = from.checked_add(bytes.len()) else {
        return Err(AllocError);
    };
    let size = content.len().max(end);
    content.resize(size, 0)?;
    copy_over(content, from, bytes);
    Ok(())
}

// Copies bytes to a place of the content.
fn copy_over(content: &mut [u8], from: usize, bytes: &[u8])
    requires { from + length bytes.now ≤ length content.old }
    ensures { content.new ≡ take from content.old ++ (bytes.now ++ drop (from + length bytes.now) content.old) }
{
    content[from..from + bytes.len()].copy_from_slice(bytes);
}

// Makes a step on the content.
fn make(content: &mut Vec<u8>, step: &DiskStep) -> Result<(), AllocError>
    ensures ok { OnOk result (content.new.items ≡ after step.now content.old.items) }
    ensures err { OnErr result (content.new.items ≡ content.old.items) }
{
    match step {
        DiskStep::Wrote(at, bytes) => put(content, *at, bytes)?,
        DiskStep::Shortened(len) => content.truncate(*len as usize),
        DiskStep::Synced => {}
    }
    Ok(())
}

// Makes of a step on the content what a crash makes of it.
fn crash_step(content: &mut Vec<u8>, step: &DiskStep, crash: Crash) -> Result<(), AllocError>
    ensures { OnOk result (content.new.items ≡ crashed_after crash step.now content.old.items) }
{
    match crash {
        Crash::Written => make(content, step)?,
        Crash::Before => {}
        Crash::Torn => {
            if let DiskStep::Wrote(at, bytes) = step {
                put(content, *at, &bytes[..bytes.len() / 2])?;
            }
        }
    }
    Ok(())
}

fn crash_all(image: &mut Vec<u8>, steps: &[DiskStep], crash: Crash) -> Result<(), AllocError>
    ensures { OnOk result (image.new.items ≡ crashed crash image.old.items steps.now) }
{
    for step in steps {
        crash_step(image, step, crash)?;
    }
    Ok(())
}

// Puts a step behind the others, for which there is room, and leaves room for one more.
fn keep(steps: &mut Vec<DiskStep>, step: DiskStep)
    requires { vec_len steps.old < vec_capacity steps.old }
    ensures steps { steps.new.items ≡ steps.old.items ++ step ∷ [] }
    ensures room { vec_len steps.old + 2 ≤ vec_capacity steps.old → vec_len steps.new < vec_capacity steps.new }
{
    let _ = steps.push(step);
}

// Makes a change, and puts it behind the others with room for a sync. Where memory runs out nothing changes.
fn change(steps: &mut Vec<DiskStep>, held: &mut Vec<u8>, step: DiskStep) -> Result<(), AllocError>
    ensures steps { OnOk result (steps.new.items ≡ steps.old.items ++ step ∷ []) }
    ensures held { OnOk result (held.new.items ≡ after step held.old.items) }
    ensures room { OnOk result (vec_len steps.new < vec_capacity steps.new) }
    ensures err { OnErr result ((steps.new.items ≡ steps.old.items) × (held.new.items ≡ held.old.items)) }
    ensures err_room { OnErr result (vec_len steps.old < vec_capacity steps.old → vec_len steps.new < vec_capacity steps.new) }
{
    steps.reserve(2)?;
    make(held, &step)?;
    keep(steps, step);
    Ok(())
}

impl Disk for MemDisk {
    ghost use Rattle.edge_kit.specs.OnMemDisks.{next_call, Shows, moment as moment_of, Left, IsCalled, Unmade, MadeAt, Lacked, KeepsSync};

    ghost shows = { λ d c. c ≡ d.held.items };

    ghost moment = { λ d. length d.steps.items };

    ghost leaves = { λ d k c. LeavesAt d.first.items d.steps.items k c };

    ghost faults = { λ d. d.calls.faults };

    fn len(&mut self) -> Result<u64, Failed>
        ensures len { IfOk result (λ n. (c : List ℕ) → Shows self.old c → n ≡ length c) }
        ensures shows { Alike (Shows self.old) (Shows self.new) }
        ensures time { Elapses Same (moment_of self.old) (moment_of self.new) (Left self.old) (Left self.new) }
        ensures same { Unmade self.old self.new }
        ensures works { is_ok result ≡ is_working (next_call self.old) }
        ensures called { IsCalled self.old self.new result }
    {
        let Turn::Works = next_turn(&mut self.calls, self.stop) else {
            return Err(self.calls.fail());
        };
        Ok(self.held.len() as u64)
    }

    fn read(&mut self, at: u64, buf: &mut [u8]) -> Result<usize, Failed>
        ensures bound { IfOk result (λ n. n ≤ length buf.new) }
        ensures bytes { IfOk result (λ n. (c : List ℕ) → Shows self.old c → ReadsAt c at buf.new n) }
        ensures image { OnOk result ((c : List ℕ) → Shows self.old c → Left self.old (moment_of self.old) c) }
        ensures shows { Alike (Shows self.old) (Shows self.new) }
        ensures time { Elapses Same (moment_of self.old) (moment_of self.new) (Left self.old) (Left self.new) }
        ensures same { Unmade self.old self.new }
        ensures works { is_ok result ≡ is_working (next_call self.old) }
        ensures called { IsCalled self.old self.new result }
    {
        let Turn::Works = next_turn(&mut self.calls, self.stop) else {
            return Err(self.calls.fail());
        };
        let from = at as usize;
        if from >= self.held.len() {
            return Ok(0);
        }
        let rest = &self.held[from..];
        let count = rest.len().min(buf.len());
        buf[..count].copy_from_slice(&rest[..count]);
        Ok(count)
    }

    fn write_at(&mut self, at: u64, bytes: &[u8]) -> Result<(), Failed>
        ensures shows { OnOk result (Follows (λ d c. c ≡ overwrite at bytes.now d) (Shows self.old) (Shows self.new)) }
        ensures time { Elapses (Torn at (length bytes.now)) (moment_of self.old) (moment_of self.new) (Left self.old) (Left self.new) }
        ensures goes { GoesBy (next_call self.old) result ((v : _) × (v.items ≡ bytes.now) × MadeAt self.old self.new (Wrote at v)) (Unmade self.old self.new) (Lacked self.old self.new) }
        ensures called { IsCalled self.old self.new result }
    {
        let turn = next_turn(&mut self.calls, self.stop);
        if let Turn::Fails = turn {
            return Err(self.calls.fail());
        }
        let Ok(kept) = bytes.to_vec(self.alloc) else {
            return Err(lack(&mut self.calls, &mut self.lacks));
        };
        let Ok(()) = change(&mut self.steps, &mut self.held, DiskStep::Wrote(at, kept)) else {
            return Err(lack(&mut self.calls, &mut self.lacks));
        };
        if let Turn::Stops = turn {
            return Err(self.calls.fail());
        }
        Ok(())
    }

    fn cut(&mut self, len: u64) -> Result<(), Failed>
        ensures shows { OnOk result (Follows (λ d c. c ≡ take len d) (Shows self.old) (Shows self.new)) }
        ensures time { Elapses (Cut len) (moment_of self.old) (moment_of self.new) (Left self.old) (Left self.new) }
        ensures goes { GoesBy (next_call self.old) result (MadeAt self.old self.new (Shortened len)) (Unmade self.old self.new) (Lacked self.old self.new) }
        ensures called { IsCalled self.old self.new result }
    {
        let turn = next_turn(&mut self.calls, self.stop);
        if let Turn::Fails = turn {
            return Err(self.calls.fail());
        }
        let Ok(()) = change(&mut self.steps, &mut self.held, DiskStep::Shortened(len)) else {
            return Err(lack(&mut self.calls, &mut self.lacks));
        };
        if let Turn::Stops = turn {
            return Err(self.calls.fail());
        }
        Ok(())
    }

    fn sync(&mut self) -> Result<(), Failed>
        ensures durable { OnOk result ((c : List ℕ) → Left self.new (moment_of self.new) c → Shows self.old c) }
        ensures shows { Alike (Shows self.old) (Shows self.new) }
        ensures time { Elapses Same (moment_of self.old) (moment_of self.new) (Left self.old) (Left self.new) }
        ensures kept { OnOk result (KeepsSync self.old self.new) }
        ensures unmade { OnErr result (Unmade self.old self.new) }
        ensures works { is_ok result ≡ is_working (next_call self.old) }
        ensures called { IsCalled self.old self.new result }
    {
        let Turn::Works = next_turn(&mut self.calls, self.stop) else {
            return Err(self.calls.fail());
        };
        if self.synced == self.steps.len() {
            return Ok(());
        }
        keep(&mut self.steps, DiskStep::Synced);
        self.synced = self.steps.len();
        Ok(())
    }
}
