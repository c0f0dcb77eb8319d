// Heads that stand and heads that don't.
use crate::cells::{DEAD, FREE};
use block::{Head, Shelf, block_at, checksum};

#[test]
fn a_free_block_of_five_stands(rt: HostRuntime) {
    assert!(rt; block_at(&FREE, 0));
    assert!(rt; !block_at(&FREE, 1));
    assert!(rt; !block_at(&FREE, 8));
    let head = Head::try_from(FREE[0]).expect(&rt, "a head");
    assert_eq!(rt; head.length, 5);
    assert!(rt; !head.in_use);
    assert_eq!(rt; u32::from(head), FREE[0]);
}

#[test]
fn a_block_in_use_stands_with_its_sum_alone(rt: HostRuntime) {
    assert!(rt; block_at(&[2147483653, 7, 27, 0, 0], 0));
    assert!(rt; block_at(&[2147483653, 7, 63, 0, 6], 0));
    assert!(rt; !block_at(&[2147483653, 8, 63, 0, 6], 0), "another owner");
    assert!(rt; !block_at(&[2147483653, 7, 63, 0], 0), "past the end");
    assert_eq!(rt; checksum(2147483653, 7, &[0, 6]), 63);
    let head = Head::try_from(2147483653).expect(&rt, "a head");
    assert_eq!(rt; head.length, 2);
    assert!(rt; head.in_use);
}

// Whether a block of 130 noughts stands, with one cell of its row as given and the checksum that fits. The
// row has three chunks, the last of two cells.
fn stands_with(place: usize, cell: u32) -> bool {
    let mut row = [0; 130];
    if let Some(hit) = row.get_mut(place) {
        *hit = cell;
    }
    let first = Shelf::MARK + 260;
    let mut shelf = [0; 133];
    shelf[0] = first;
    shelf[2] = checksum(first, 0, &row);
    shelf[3..].copy_from_slice(&row);
    block_at(&shelf, 0)
}

#[test]
fn no_cell_of_a_row_may_be_large(rt: HostRuntime) {
    for place in 0..130usize {
        assert!(rt; stands_with(place, Shelf::LIMIT - 1));
        assert!(rt;
            !stands_with(place, Shelf::LIMIT),
            "2^31 - 1, which no sum sees"
        );
        assert!(rt; !stands_with(place, Shelf::MARK));
        assert!(rt; !stands_with(place, DEAD));
    }
}

#[test]
fn what_is_no_head_is_none(rt: HostRuntime) {
    assert!(rt; Head::try_from(DEAD).is_err());
    assert!(rt; Head::try_from(Shelf::LIMIT).is_err());
    assert!(rt; Head::try_from(Shelf::MARK).is_ok());
    assert!(rt; Head::try_from(DEAD - 1).is_ok());
}
