// The test for small cells and the checksum of a row, by chunks: no division for each cell, and plain loops
// inside a chunk that the compiler can vectorise.
ghost use Rattle.std.specs.Prelude.{◌≡◌, ◌+◌, ◌*◌, ◌%◌, ◌<◌, ◌≤◌, length, sum};
ghost use Rattle.block.specs.Block.{weighed, sum_of, all_small};

use crate::limits::Shelf;

// cells that are tested or summed at once
const CHUNK: usize = 64;

// checksums are taken modulo it
pub(crate) const MODULUS: u64 = Shelf::LIMIT as u64;
// times the sum of a chunk it is below 2^63
const SMALL_WEIGHT: u64 = 33_000_000;

// Whether the largest cell is below the limit; all are looked at, which is quicker than to stop.
fn are_small(cells: &[u32]) -> bool
    ensures { result ≡ all_small cells.now }
{
    cells.iter().fold(0, |largest, x| largest.max(*x)) < Shelf::LIMIT
}

// The same of a row of any length; stops at the first chunk with one that isn't. By as_chunks(), not chunks(): the compiler
// knows then how long a chunk is, which halves the time.
#[inline(never)]
fn is_small_by_chunks(row: &[u32]) -> bool
    ensures { result ≡ all_small row.now }
{
    let (chunks, rest) = row.as_chunks::<CHUNK>();
    chunks.iter().all(|chunk| are_small(chunk)) && are_small(rest)
}

// Whether all cells of a row are below the limit.
pub fn is_small(row: &[u32]) -> bool
    ensures { result ≡ all_small row.now }
{
    // most rows are short, and cost no call then
    if row.len() < CHUNK {
        are_small(row)
    } else {
        is_small_by_chunks(row)
    }
}

// The sum of some cells, and their sum by weights of 1, 2, and so on.
#[derive(Clone, Copy)]
struct ChunkSums {
    plain: u64,
    weighted: u64,
}

fn chunk_sums(chunk: &[u32]) -> ChunkSums
    requires { length chunk.now ≤ 64 }
    ensures plain { result.plain ≡ sum chunk.now }
    ensures weighted { result.weighted ≡ weighed 0 chunk.now }
    ensures plain_bound { result.plain < 274877906945 }
    ensures weighted_bound { result.weighted < 17592186044417 }
{
    let mut sums = ChunkSums {
        plain: 0,
        weighted: 0,
    };
    // One loop for both: a fold over pairs takes 1.5 times as long, and two chains 1.7 times.
    for (i, x) in chunk.iter().enumerate() {
        sums.plain += *x as u64;
        sums.weighted += (i as u32 + 1) as u64 * *x as u64;
    }
    sums
}

// What the cells of a chunk add for a weight that all of them have, modulo the limit: reduced first only
// where the weight is so large, in a row of millions of cells, that the product would not fit.
fn product(weight: u64, plain: u64) -> u64
    requires weight { weight < 2147483647 }
    requires plain { plain < 274877906945 }
    ensures value { result % 2147483647 ≡ (weight * plain) % 2147483647 }
    ensures bound { result < 9223372036854775808 }
{
    if weight < SMALL_WEIGHT {
        weight * plain
    } else {
        weight * (plain % MODULUS)
    }
}

// A sum and then a chunk, the first cell of which has a weight of `weight` + 1.
fn add_chunk(sum: u64, weight: u64, chunk: &[u32]) -> u64
    requires sum { sum < 17179869184 }
    requires weight { weight < 2147483647 }
    requires chunk { length chunk.now ≤ 64 }
    ensures { result ≡ (sum + weighed weight chunk.now) % 2147483647 }
{
    let sums = chunk_sums(chunk);
    (sum + product(weight, sums.plain) + sums.weighted) % MODULUS
}

// The checksum of a head's first cell, an owner and a row, whatever their cells are.
pub fn checksum(first: u32, owner: u32, row: &[u32]) -> u32
    ensures { result ≡ sum_of first owner row.now }
{
    let mut sum = first as u64 + 3 * owner as u64;
    // Carried, not told from the chunk's number: that is a product more, and no plainer.
    let mut weight = 4;
    for chunk in row.chunks(CHUNK) {
        sum = add_chunk(sum, weight, chunk);
        weight = (weight + CHUNK as u64) % MODULUS;
    }
    (sum % MODULUS) as u32
}
