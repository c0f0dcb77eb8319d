// What is refused, by which number, and that no cell changes then.
use crate::answers::{Answer, refusal};
use crate::cells::{DEAD, FREE, WORKED, crowd};
use recovery::mend;
use requests::{give_back, set_cell, take_block, view};
use shelf::is_sound;
use std::test::Fail;

// The worked shelf with 7's first cell hit.
const UNSOUND: [u32; 8] = [5, 7, 27, 0, 0, 2147483649, 8, 26];

const OTHER_OWNER: u64 = 4294967296 + 7;

const LAST: u64 = 18446744073709551615;

// Whether a request is refused by a number, and no cell changes.
fn is_refused<F: FnOnce(&mut [u32]) -> Answer>(cells: &[u32; 8], number: u64, ask: F) -> bool
    requires { F.IsAlwaysCallable ask }
{
    let mut shelf = *cells;
    refusal(ask(&mut shelf)) == number && shelf == *cells
}

// Of the worked shelf: who takes, how long a row, and the number. 2^32 would be nought if it were cut.
const TAKES: [(u64, u64, u64); 8] = [
    (2147483647, 0, 2),
    (OTHER_OWNER, 0, 2),
    (LAST, LAST, 2),
    (7, 0, 3),
    (8, LAST, 3),
    (9, 100_001, 4),
    (9, 4294967296, 4),
    (9, LAST, 4),
];

#[test]
fn taking_refused(rt: HostRuntime) {
    for (whose, long, number) in TAKES {
        assert!(rt; is_refused(&WORKED, number, |shelf| take_block(shelf, whose, long)));
    }
    assert!(rt;
        is_refused(&UNSOUND, 1, |shelf| take_block(shelf, LAST, LAST)),
        "the first of the list"
    );
}

#[test]
fn giving_back_refused(rt: HostRuntime) {
    assert!(rt; is_refused(&UNSOUND, 1, |shelf| give_back(shelf, 8)));
    assert!(rt; is_refused(&WORKED, 2, |shelf| give_back(shelf, 2147483647)));
    assert!(rt;
        is_refused(&WORKED, 2, |shelf| give_back(shelf, OTHER_OWNER)),
        "not 7"
    );
    assert!(rt; is_refused(&WORKED, 5, |shelf| give_back(shelf, 9)));
    assert!(rt;
        is_refused(&FREE, 5, |shelf| give_back(shelf, 0)),
        "a free block is nobody's"
    );
}

// Of the worked shelf: who sets, which cell, to what, and the number. Who holds none is told before the cell
// is looked at.
const SETS: [(u64, u64, u64, u64); 10] = [
    (2147483647, 0, 0, 2),
    (OTHER_OWNER, 0, 0, 2),
    (7, 0, 2147483647, 2),
    (7, 0, 4294967296, 2),
    (9, 0, 0, 5),
    (9, LAST, 0, 5),
    (7, 2, 0, 4),
    (7, 4294967296, 0, 4),
    (7, LAST, 0, 4),
    (8, 0, 0, 4),
];

#[test]
fn setting_refused(rt: HostRuntime) {
    for (whose, cell, to, number) in SETS {
        assert!(rt; is_refused(&WORKED, number, |shelf| set_cell(shelf, whose, cell, to)));
    }
    assert!(rt; is_refused(&UNSOUND, 1, |shelf| set_cell(shelf, 8, 0, 0)));
}

#[test]
fn a_part_of_none(rt: HostRuntime) {
    assert!(rt; view(&WORKED, OTHER_OWNER).is_empty(), "not 7");
    assert!(rt; view(&WORKED, LAST).is_empty());
    assert!(rt; view(&UNSOUND, 8).is_empty(), "not sound");
}

// A sound shelf of 100,001 cells is too long: 33,333 blocks, and two dead cells. All is refused by 1.
#[test]
fn a_shelf_that_is_too_long(rt: HostRuntime) -> Result<(), Fail> {
    let mut cells = vec![in rt.alloc(); DEAD; 100_001]?;
    let shelf = cells.as_mut_slice();
    crowd(shelf, |k| k);
    assert!(rt; is_sound(shelf));
    assert_eq!(rt; refusal(mend(shelf)), 1);
    assert_eq!(rt; refusal(take_block(shelf, 7, 0)), 1);
    assert_eq!(rt; refusal(give_back(shelf, 8)), 1);
    assert_eq!(rt; refusal(set_cell(shelf, 8, 0, 0)), 1);
    assert!(rt; view(shelf, 8).is_empty());
    Ok(())
}
