//! What a compaction would leave at most, by counts alone.
ghost use Rattle.std.specs.Prelude.{◌≡◌, ◌-◌, ◌^◌, min};
ghost use Rattle.key_snapshot.specs.Weights.{key_weight};
ghost use Rattle.desk_parts.specs.Weights.{desk_weight};

use protect_record::Record;
use record_join::Books;

/// The bytes of a file's header and its generation's frame.
const FILE: u64 = 56;

/// The bytes of a key's floors and of its state at most, each with a frame.
const KEY: u64 = 134;

/// The bytes of a block at most, with a frame.
const BLOCK: u64 = 95;

/// The bytes of a vote at most, with a frame.
const VOTE: u64 = 103;

/// At most how many bytes a compaction would leave of these records, or 2^64 - 1 where that is less. Takes no memory,
/// and looks at no entry.
pub fn weigh(books: &Books) -> u64
    ensures { result ≡ desk_weight books.now }
{
    let mut weight = FILE;
    'keys: for (_key, record) in books.iter() {
        weight = weight.saturating_add(weigh_record(record));
    }
    weight
}

/// The weight of a key's record, or 2^64 - 1 where that is less.
fn weigh_record(of_key: &Record) -> u64
    ensures { result ≡ min (2 ^ 64 - 1) (key_weight of_key.now) }
{
    let blocks = BLOCK.saturating_mul(of_key.block_count() as u64);
    let votes = VOTE.saturating_mul(of_key.vote_count() as u64);
    KEY.saturating_add(blocks).saturating_add(votes)
}
