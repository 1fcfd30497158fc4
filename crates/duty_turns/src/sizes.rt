//! When a journal is compacted.
ghost use Rattle.std.specs.Prelude.{◌≡◌};
ghost use Rattle.duty_turns.specs.Turns.{frees_half, frees_quarter, is_worth_compacting};

/// How many bytes a journal has at least that is compacted where that frees half of it.
const LEAST_SIZE: u64 = 16_777_216;

/// How many bytes a journal may have without being compacted where that frees a quarter of it.
const SIZE_LIMIT: u64 = 1_073_741_824;

/// Whether a journal of `size` bytes is compacted, of which a compaction leaves `weight` bytes at most: it has 16,777,216
/// at least and at most half is left, or it has more than 1,073,741,824 and at least a quarter is freed. Takes no memory.
pub fn is_worth_compacting(size: u64, weight: u64) -> bool
    ensures { result ≡ is_worth_compacting size weight }
{
    frees_half(size, weight) || frees_quarter(size, weight)
}

fn frees_half(size: u64, weight: u64) -> bool
    ensures { result ≡ frees_half size weight }
{
    LEAST_SIZE <= size && weight <= size / 2
}

fn frees_quarter(size: u64, weight: u64) -> bool
    ensures { result ≡ frees_quarter size weight }
{
    SIZE_LIMIT < size && weight <= size - size / 4
}
