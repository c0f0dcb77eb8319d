// Requests to the cell: blocks taken, given back and set.
ghost use Rattle.std.specs.Prelude.{◌<◌};

use crate::answers::{GIVEN, NO_ROOM, SAVED, SET, TAKEN, refusal};
use crate::cells::{DEAD, FREE, WORKED, put_block};
use block::Shelf;
use recovery::mend;
use requests::{give_back, set_cell, take_block, view};
use shelf::is_sound;
use std::process::Abort;
use std::test::Fail;

// The worked example, from cells of nought.
#[test]
fn the_worked_shelf(rt: HostRuntime) {
    let mut shelf = [0; 8];
    assert_eq!(rt; mend(&mut shelf), SAVED);
    assert_eq!(rt; shelf, FREE);
    assert_eq!(rt; take_block(&mut shelf, 7, 2), TAKEN);
    assert_eq!(rt; shelf, [2147483653, 7, 27, 0, 0, 2147483648, 0, 1]);
    assert_eq!(rt; take_block(&mut shelf, 8, 0), TAKEN);
    assert_eq!(rt; shelf, WORKED);
    assert_eq!(rt; take_block(&mut shelf, 9, 0), NO_ROOM);
    assert_eq!(rt; shelf, WORKED, "no room changes nothing");
    assert_eq!(rt; set_cell(&mut shelf, 7, 1, 6), SET);
    assert_eq!(rt; shelf, [2147483653, 7, 63, 0, 6, 2147483649, 8, 26]);
    assert_eq!(rt; view(&shelf, 7), [0, 6].as_slice());
    assert!(rt; view(&shelf, 8).is_empty());
    assert!(rt; view(&shelf, 9).is_empty());
}

// A free block behind the first three cells, cell by cell.
fn put_free(shelf: &mut [u32], row: usize) {
    if row < 100 && shelf.len() >= 6 + row {
        let twice = 2 * row as u32;
        shelf[3] = Shelf::MARK + twice;
        shelf[4] = 0;
        shelf[5] = 1 + twice;
        shelf[6..6 + row].fill(0);
    }
}

// 7's, some dead cells, 8's, some dead cells, 9's: 8's is given back.
fn given_between(rt: &impl Abort, before: usize, behind: usize)
    requires before { before < 3 }
    requires behind { behind < 3 }
{
    let last = 6 + before + behind;
    let mut cells = [DEAD; 13];
    let shelf = &mut cells[..last + 3];
    put_block(shelf, 0, 7);
    put_block(shelf, 3 + before, 8);
    put_block(shelf, last, 9);
    assert!(rt; is_sound(shelf));
    assert_eq!(rt; give_back(shelf, 8), GIVEN);
    assert!(rt; is_sound(shelf));
    let mut others = [DEAD; 13];
    let wanted = &mut others[..last + 3];
    put_block(wanted, 0, 7);
    put_free(wanted, before + behind);
    put_block(wanted, last, 9);
    assert_eq!(rt; cells, others);
}

#[test]
fn given_back_between_dead_cells(rt: HostRuntime) {
    for before in 0..3usize {
        for behind in 0..3usize {
            given_between(&rt, before, behind);
        }
    }
}

// Three blocks that have all of nine cells; the outer ones are given back, and then the one between.
#[test]
fn given_back_between_free_blocks(rt: HostRuntime) {
    let mut shelf = [0; 9];
    assert_eq!(rt; mend(&mut shelf), SAVED);
    assert_eq!(rt; take_block(&mut shelf, 1, 0), TAKEN);
    assert_eq!(rt; take_block(&mut shelf, 2, 0), TAKEN);
    assert_eq!(rt; take_block(&mut shelf, 3, 0), TAKEN);
    assert_eq!(rt; give_back(&mut shelf, 1), GIVEN);
    assert_eq!(rt; give_back(&mut shelf, 3), GIVEN);
    assert_eq!(rt;
        shelf,
        [2147483648, 0, 1, 2147483649, 2, 8, 2147483648, 0, 1]
    );
    assert_eq!(rt; give_back(&mut shelf, 2), GIVEN);
    assert_eq!(rt; shelf, [2147483660, 0, 13, 0, 0, 0, 0, 0, 0]);
}

// What 7 leaves of eight free cells.
fn left_by(long: u64) -> [u32; 8] {
    let mut shelf = FREE;
    let _ = take_block(&mut shelf, 7, long);
    shelf
}

#[test]
fn what_is_over(rt: HostRuntime) {
    assert_eq!(rt; left_by(5), [2147483659, 7, 33, 0, 0, 0, 0, 0]);
    assert_eq!(rt; left_by(4), [2147483657, 7, 31, 0, 0, 0, 0, DEAD]);
    assert_eq!(rt; left_by(3), [2147483655, 7, 29, 0, 0, 0, DEAD, DEAD]);
    assert_eq!(rt; left_by(2), [2147483653, 7, 27, 0, 0, 2147483648, 0, 1]);
    assert_eq!(rt; left_by(1), [2147483651, 7, 25, 0, 2147483650, 0, 3, 0]);
    assert_eq!(rt; left_by(6), FREE);
}

// The last owner has all of eight cells, and sets the last of a row.
#[test]
fn the_last_owner_and_the_largest_cell(rt: HostRuntime) {
    let mut shelf = FREE;
    assert_eq!(rt; take_block(&mut shelf, 2147483646, 5), TAKEN);
    assert_eq!(rt; set_cell(&mut shelf, 2147483646, 4, 2147483646), SET);
    assert!(rt; is_sound(&shelf));
    assert_eq!(rt;
        view(&shelf, 2147483646),
        [0, 0, 0, 0, 2147483646].as_slice()
    );
    assert_eq!(rt; give_back(&mut shelf, 2147483646), GIVEN);
    assert_eq!(rt; shelf, FREE);
}

// All of 100,000 cells for 7.
#[test]
fn the_longest_shelf(rt: HostRuntime) -> Result<(), Fail> {
    let mut cells = vec![in rt.alloc(); 0u32; 100_000]?;
    let shelf = cells.as_mut_slice();
    assert_eq!(rt; mend(shelf), SAVED);
    assert_eq!(rt; take_block(shelf, 7, 99_998), NO_ROOM);
    assert_eq!(rt; take_block(shelf, 7, 100_000), NO_ROOM);
    assert_eq!(rt; refusal(take_block(shelf, 7, 100_001)), 4);
    assert!(rt; shelf.starts_with(&[2147683642, 0, 199_995, 0]));
    assert_eq!(rt; take_block(shelf, 7, 99_997), TAKEN);
    assert!(rt; shelf.starts_with(&[2147683643, 7, 200_017, 0]));
    assert_eq!(rt; set_cell(shelf, 7, 99_996, 3), SET);
    assert!(rt; is_sound(shelf));
    assert_eq!(rt; view(shelf, 7).len(), 99_997);
    Ok(())
}
