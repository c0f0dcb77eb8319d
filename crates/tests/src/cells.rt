// Shelves and blocks that the tests of several layers look at.
use block::{Shelf, write_block};

pub const DEAD: u32 = Shelf::DEAD;

// One free block.
pub const FREE: [u32; 8] = [2147483658, 0, 11, 0, 0, 0, 0, 0];

// 7 has a row of two, and 8 one of none.
pub const WORKED: [u32; 8] = [2147483653, 7, 27, 0, 0, 2147483649, 8, 26];

// As many blocks in use with no row as 100,000 cells have room for, side by side, each of an owner for its number.
pub fn crowd<F: Fn(u32) -> u32>(shelf: &mut [u32], owner_of: F)
    requires { F.IsAlwaysCallable owner_of }
{
    for (block, k) in shelf.as_chunks_mut::<3>().0.iter_mut().zip(1..33_334) {
        write_block(block, true, owner_of(k));
    }
}

// A block in use with no row, where its three cells are on the shelf.
pub fn put_block(shelf: &mut [u32], place: usize, owner: u32) {
    if let Some(rest) = shelf.get_mut(place..)
        && let Some(block) = rest.first_chunk_mut::<3>()
    {
        write_block(block, true, owner);
    }
}
