// The shelves that are measured.
use block::{Shelf, write_block};
use random::Random;
use recovery::mend;
use std::alloc::{AllocError, Global};

pub const CELLS: usize = 100_000;

// The numbers of owners along a shelf.
// No table of functions: three names and one match are as short, and a column can be read.
#[derive(Clone, Copy)]
pub enum Order {
    // 1, 2, 3 and so on.
    Counted,
    // In no order.
    Random,
    // The multiples of 48,271.
    Steps,
}

impl Order {
    // A different owner for each number below 40,000.
    fn owner(self, number: usize) -> u32 {
        let number = (number as u64).wrapping_add(1);
        let owner = match self {
            Order::Counted => number,
            Order::Random => scattered(number),
            Order::Steps => number.wrapping_mul(48271),
        };
        (owner % 0x7fff_ffff) as u32
    }
}

// A different number below 2^31 for each such number, in no order.
fn scattered(number: u64) -> u64 {
    let mut x = number % 0x8000_0000;
    x ^= x >> 15;
    x = x.wrapping_mul(0x2c1b_3c6d) % 0x8000_0000;
    x ^= x >> 12;
    x = x.wrapping_mul(0x297a_2d39) % 0x8000_0000;
    x ^ (x >> 15)
}

// A column of the table: how many blocks, and the order of their owners.
#[derive(Clone, Copy)]
pub struct Column {
    pub count: usize,
    pub order: Order,
}

impl Column {
    // Its shelf, with so many free cells left at the end.
    pub fn shelf(self, heap: Global, room: usize) -> Result<Vec<u32>, AllocError> {
        let mut shelf = vec![in heap; 0; CELLS]?;
        let end = CELLS.saturating_sub(room);
        let cells = shelf.as_mut_slice();
        put_blocks(cells, self.count.min(end / 3), end, |k| self.order.owner(k));
        let _ = mend(cells);
        Ok(shelf)
    }

    // The owner of the block in the middle.
    pub fn middle(self) -> u64 {
        u64::from(self.order.owner(self.count / 2))
    }
}

// A block in use that has all of the part.
fn put_block(part: &mut [u32], owner: u32) {
    if part.len() >= Shelf::HEAD && part.len() <= Shelf::MOST {
        write_block(part, true, owner);
    }
}

// Blocks side by side up to an end, each of as many cells; the last has what is over.
// Not chunks_exact_mut: the last block is longer, so it would have to be split off first.
pub fn put_blocks<F: Fn(usize) -> u32>(shelf: &mut [u32], count: usize, end: usize, owner_of: F)
    requires { F.IsAlwaysCallable owner_of }
{
    let size = end.checked_div(count).unwrap_or(0);
    for k in 0..count {
        let from = k.wrapping_mul(size);
        let behind = if k.wrapping_add(1) == count {
            end
        } else {
            from.wrapping_add(size)
        };
        if let Some(part) = shelf.get_mut(from..behind) {
            put_block(part, owner_of(k));
        }
    }
}

// Every cell a first cell of a head that claims all behind it.
pub fn put_claims(shelf: &mut [u32]) {
    for (behind, cell) in shelf.iter_mut().rev().enumerate() {
        let row = behind.saturating_sub(2) as u64 % 100_000;
        *cell = Shelf::MARK + 2 * row as u32 + 1;
    }
}

// Every cell a random word.
pub fn put_noise(shelf: &mut [u32]) {
    let mut random = Random::new(1);
    shelf.fill_with(|| random.cell());
}

// Random words in random cells.
pub fn hit(shelf: &mut [u32], hits: u32) {
    let mut random = Random::new(1);
    for _ in 0..hits {
        let place = random.place(shelf.len());
        let word = random.cell();
        if let Some(cell) = shelf.get_mut(place) {
            *cell = word;
        }
    }
}
