//! Which of two files comes last, by their heads alone: a guess, which what is chosen doesn't rest on.
ghost use Rattle.std.specs.Prelude.{◌≡◌, ◌⊎◌, ◌≤◌, List, ℕ, take, nat_lt, IfOk, IfErr, IsErrOf};
ghost use Rattle.edge_kit.specs.Causes.{HasCause, Rose};
ghost use Rattle.edge_kit.specs.Disks.{Alike, Same, Elapses};
ghost use Rattle.record_journal.specs.Heads.{rank};
ghost use Rattle.record_journal.specs.Opened.{IsOutside, Unwritten};
ghost use Rattle.record_journal.specs.Seen.{HasLength};

use crate::open::OpenFault;
use edge_kit::{Disk, Failed};

// How many bytes stand before a file's first frame.
const HEADER: usize = 41;

// How many bytes the header and the frame of a generation have.
const HEAD: usize = 55;

// The frame of a generation begins so: an open gate, the length 9 in four bytes, and the tag.
const MARK: &[u8] = &[1, 9, 0, 0, 0, 6];

// How late a file comes, by its head: 0 where it isn't begun, and else one more than its generation.
#[tactic(auto, unfolding(journal_frames::specs::Frames::mark))]
fn rank_of(head: &[u8]) -> u128
    ensures { result ≡ rank head.now }
{
    let [gate, ..] = head else {
        return 0;
    };
    if *gate != 1 {
        return 0;
    }
    if head.len() != HEAD || !head[HEADER..].starts_with(MARK) {
        return 1;
    }
    let mut number = [0u8; 8];
    number.copy_from_slice(&head[47..]);
    u128::from(u64::from_le_bytes(number)) + 1
}

// The same of a disk.
fn read_rank<D: Disk>(disk: &mut D) -> Result<u128, Failed>
    ensures rank { IfOk result (λ n. (c : List ℕ) → D.shows disk.old c → n ≡ rank (take 55 c)) }
    ensures shows { Alike (D.shows disk.old) (D.shows disk.new) }
    ensures time { Elapses Same (D.moment disk.old) (D.moment disk.new) (D.leaves disk.old) (D.leaves disk.new) }
    ensures cause { HasCause (D.faults disk.old) (D.faults disk.new) result }
{
    let mut head = [0u8; HEAD];
    let count = disk.read(0, &mut head)?;
    Ok(rank_of(&head[..count]))
}

// Whether the second file comes last by their heads, and the length of the second.
pub fn compare_heads<D: Disk>(first: &mut D, second: &mut D) -> Result<(bool, u64), OpenFault>
    ensures newer { IfOk result (λ heads. (a b : List ℕ) → D.shows first.old a → D.shows second.old b → heads.0 ≡ nat_lt (rank (take 55 a)) (rank (take 55 b))) }
    ensures len { IfOk result (λ heads. HasLength D.shows second.new heads.1) }
    ensures first_unwritten { Unwritten D.shows D.moment D.leaves first.old first.new }
    ensures second_unwritten { Unwritten D.shows D.moment D.leaves second.old second.new }
    ensures fault { IfErr result IsOutside }
    ensures cause { IsErrOf result OpenFault.Disk → Rose (D.faults first.old) (D.faults first.new) ⊎ Rose (D.faults second.old) (D.faults second.new) }
    ensures first_later { D.faults first.old ≤ D.faults first.new }
    ensures second_later { D.faults second.old ≤ D.faults second.new }
{
    let Ok(one) = read_rank(first) else {
        return Err(OpenFault::Disk);
    };
    let Ok(len) = second.len() else {
        return Err(OpenFault::Disk);
    };
    let Ok(other) = read_rank(second) else {
        return Err(OpenFault::Disk);
    };
    Ok((one < other, len))
}
