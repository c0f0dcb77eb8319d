// Shelves that were hit, and what mending leaves of them.
use crate::answers::{SAVED, refusal};
use crate::cells::{DEAD, FREE, WORKED, put_block};
use block::Shelf;
use recovery::mend;
use shelf::{find_block, is_sound};
use std::array;
use std::process::Abort;
use std::test::Fail;

// What mending makes of a shelf of eight cells, which is sound then.
fn mended(rt: &impl Abort, mut shelf: [u32; 8]) -> [u32; 8] {
    assert_eq!(rt; mend(&mut shelf), SAVED);
    assert!(rt; is_sound(&shelf));
    shelf
}

// The worked shelf with one cell hit.
fn worked_but(place: usize, cell: u32) -> [u32; 8] {
    let mut shelf = WORKED;
    if let Some(hit) = shelf.get_mut(place) {
        *hit = cell;
    }
    shelf
}

#[test]
fn one_hit(rt: HostRuntime) {
    assert_eq!(rt; mended(&rt, WORKED), WORKED, "none");
    let without_seven = [2147483652, 0, 5, 0, 0, 2147483649, 8, 26];
    for (place, cell, hit) in [
        (0, 5, "no head"),
        (0, DEAD, "a dead cell"),
        (0, 2147483652, "free"),
        (0, 2147483659, "as long as the shelf"),
        (1, 8, "another's"),
        (2, 28, "another sum"),
        (4, 1, "another row"),
    ] {
        assert_eq!(rt;
            mended(&rt, worked_but(place, cell)),
            without_seven,
            "{hit}"
        );
    }
    let without_eight = [2147483653, 7, 27, 0, 0, 2147483648, 0, 1];
    assert_eq!(rt; mended(&rt, worked_but(5, 2147483648)), without_eight);
    assert_eq!(rt; mended(&rt, worked_but(6, 7)), without_eight);
}

#[test]
fn a_forged_block_before_the_own(rt: HostRuntime) {
    assert_eq!(rt;
        mended(&rt, [2147483653, 8, 30, 0, 0, 2147483649, 8, 26]),
        [2147483653, 8, 30, 0, 0, 2147483648, 0, 1]
    );
    assert_eq!(rt;
        mended(&rt, [2147483649, 7, 23, 0, 0, 2147483649, 7, 23]),
        [2147483649, 7, 23, 2147483652, 0, 5, 0, 0],
        "what lies between and their own are one stretch"
    );
}

#[test]
fn all_cells_alike(rt: HostRuntime) {
    for cell in [DEAD, 0, 2147483647, 2147483648, 2147483649] {
        assert_eq!(rt; mended(&rt, [cell; 8]), FREE, "all are {cell}");
    }
}

#[test]
fn the_shortest_shelves(rt: HostRuntime) {
    assert_eq!(rt; refusal(mend(&mut [])), 1);
    let mut two = [DEAD, 6];
    assert_eq!(rt; refusal(mend(&mut two)), 1);
    assert_eq!(rt; two, [DEAD, 6], "nothing changed");
    let mut three = [DEAD, 6, 5];
    assert_eq!(rt; mend(&mut three), SAVED);
    assert_eq!(rt; three, [2147483648, 0, 1]);
}

// A number in no order, for each k and seed.
fn noise(k: usize, seed: u64) -> u32 {
    let mixed = (k as u64)
        .wrapping_add(1)
        .wrapping_mul(seed)
        .wrapping_mul(0x9e37_79b9_7f4a_7c15);
    (mixed / 4294967296 % 4294967296) as u32
}

// Noise, with 1's block at 10, 2's at 30 and another of 1's at 45.
fn noisy(seed: u64) -> [u32; 60] {
    let mut shelf = array::from_fn(|k| noise(k, seed));
    put_block(&mut shelf, 10, 1);
    put_block(&mut shelf, 30, 2);
    put_block(&mut shelf, 45, 1);
    shelf
}

// What stands among noise is kept, and mending again changes nothing.
fn mended_twice(rt: &impl Abort, seed: u64) {
    let mut shelf = noisy(seed);
    assert_eq!(rt; mend(&mut shelf), SAVED);
    assert!(rt; is_sound(&shelf));
    assert_eq!(rt; find_block(&shelf, 1), Some(10));
    assert_eq!(rt; find_block(&shelf, 2), Some(30));
    let mut again = shelf;
    assert_eq!(rt; mend(&mut again), SAVED);
    assert_eq!(rt; again, shelf);
}

#[test]
fn blocks_among_noise(rt: HostRuntime) {
    for seed in 1..200u64 {
        mended_twice(&rt, seed);
    }
}

// The k-th of the heads that stand at every third cell, each of which claims the rest of the shelf.
fn claim(k: u32) -> u32 {
    let row = 99_997u32.saturating_sub(k.saturating_mul(3));
    Shelf::MARK + 2 * row + 1
}

#[test]
fn many_heads_that_claim_the_rest(rt: HostRuntime) -> Result<(), Fail> {
    let mut shelf = vec![in rt.alloc(); 0u32; 100_000]?;
    for (block, k) in shelf.as_chunks_mut::<3>().0.iter_mut().zip(0..33_333) {
        block[0] = claim(k);
    }
    assert!(rt; !is_sound(&shelf));
    assert_eq!(rt; mend(&mut shelf), SAVED);
    assert!(rt; is_sound(&shelf));
    assert!(rt; shelf.starts_with(&[2147683642, 0, 199_995, 0]));
    Ok(())
}
