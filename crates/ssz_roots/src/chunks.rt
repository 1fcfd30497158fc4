//! What a tree stands over: a list of chunks, each made when it is asked for.
ghost use Rattle.std.specs.Prelude.{◌≡◌, ℕ, ◌*◌, ◌<◌, ◌≤◌, List, drop, length, map, take, Some, slice_get};
ghost use Rattle.ssz_roots.specs.Packing.{bit_bytes, bits_value, chunk_from, number_bytes, packed};
ghost use Rattle.ssz_roots.specs.Trees.{root_chunks};

use edge_kit::Root;

/// A list of chunks of 32 bytes. None is kept: each is made when it is asked for.
pub trait Chunks {
    ghost chunks: { Self → List (List ℕ) };

    /// How many chunks there are.
    fn count(&self) -> usize
        ensures { result ≡ length (chunks self.now) };

    /// The chunk at an index.
    fn chunk(&self, index: usize) -> Root
        requires { index < length (chunks self.now) }
        ensures { slice_get (chunks self.now) index ≡ Some result.0 };
}

impl Chunks for &[Root] {
    ghost chunks = { λ roots. root_chunks roots.now };

    fn count(&self) -> usize {
        self.len()
    }

    fn chunk(&self, index: usize) -> Root {
        self[index]
    }
}

/// Bytes: 32 in a chunk, the last filled with zeros (SimpleSerialize, `pack`).
impl Chunks for &[u8] {
    ghost chunks = { λ bytes. packed bytes.now };

    fn count(&self) -> usize {
        self.len().div_ceil(32)
    }

    fn chunk(&self, index: usize) -> Root {
        let end = self.len();
        Root(chunk_of_bytes(&self[32 * index..end]))
    }
}

/// Bits: eight in a byte, the lowest first, and 32 bytes in a chunk (`pack_bits`).
impl Chunks for &[bool] {
    ghost chunks = { λ bits. packed (bit_bytes bits.now) };

    fn count(&self) -> usize {
        self.len().div_ceil(256)
    }

    fn chunk(&self, index: usize) -> Root {
        let end = self.len();
        Root(chunk_of_bits(&self[256 * index..end]))
    }
}

/// Numbers: each as 8 little-endian bytes, four in a chunk (`pack`).
impl Chunks for &[u64] {
    ghost chunks = { λ numbers. packed (number_bytes numbers.now) };

    fn count(&self) -> usize {
        self.len().div_ceil(4)
    }

    fn chunk(&self, index: usize) -> Root {
        let end = self.len();
        Root(chunk_of_numbers(&self[4 * index..end]))
    }
}

/// The first 32 bytes, with zeros behind.
fn chunk_of_bytes(bytes: &[u8]) -> [u8; 32]
    ensures { result ≡ chunk_from bytes.now }
{
    let mut chunk = [0; 32];
    let count = bytes.len().min(32);
    chunk[..count].copy_from_slice(&bytes[..count]);
    chunk
}

/// The first 256 bits as bytes, with zeros behind.
fn chunk_of_bits(bits: &[bool]) -> [u8; 32]
    ensures { result ≡ chunk_from (bit_bytes bits.now) }
{
    let mut chunk = [0; 32];
    'bytes: for place in 0..32 {
        chunk[place] = byte_at(bits, 8 * place);
    }
    chunk
}

/// The eight bits from this place on as a byte, the lowest first.
pub fn byte_at(bits: &[bool], start: usize) -> u8
    ensures { result ≡ bits_value (take 8 (drop start bits.now)) }
{
    if bits.len() <= start {
        return 0;
    }
    let end = bits.len().min(start + 8);
    byte_of_bits(&bits[start..end])
}

/// At most eight bits as a byte, the lowest first.
fn byte_of_bits(bits: &[bool]) -> u8
    requires { length bits.now ≤ 8 }
    ensures { result ≡ bits_value bits.now }
{
    let mut byte = 0;
    'bits: for (place, bit) in bits.iter().enumerate() {
        if *bit {
            byte += 1 << place;
        }
    }
    byte
}

/// The first four numbers as bytes, with zeros behind.
fn chunk_of_numbers(numbers: &[u64]) -> [u8; 32]
    ensures { result ≡ chunk_from (number_bytes numbers.now) }
{
    let mut chunk = [0; 32];
    'numbers: for place in 0..numbers.len().min(4) {
        chunk[8 * place..8 * place + 8].copy_from_slice(&numbers[place].to_le_bytes());
    }
    chunk
}
