// Shelves that are sound, where others are at fault, and what is found along them.
use crate::cells::{DEAD, FREE, WORKED, crowd, put_block};
use shelf::{Item, Walk, find_block, find_room, first_unsound, is_sound};
use std::alloc::{AllocError, Global};
use std::test::Fail;

#[test]
fn sound_shelves(rt: HostRuntime) {
    assert_eq!(rt; first_unsound(&[]), None, "no cells");
    assert_eq!(rt; first_unsound(&FREE), None, "one free block");
    assert_eq!(rt; first_unsound(&WORKED), None);
    assert!(rt; is_sound(&WORKED));
    assert_eq!(rt; first_unsound(&[DEAD]), None);
    assert_eq!(rt; first_unsound(&[DEAD, DEAD]), None);
    assert_eq!(rt;
        first_unsound(&[DEAD, DEAD, 2147483649, 8, 26, DEAD, 2147483649, 7, 23, DEAD]),
        None
    );
    assert_eq!(rt;
        first_unsound(&[2147483648, 0, 1, 2147483649, 8, 26, 2147483648, 0, 1]),
        None,
        "free blocks that are apart"
    );
}

#[test]
fn nothing_stands_at_a_place(rt: HostRuntime) {
    assert_eq!(rt; first_unsound(&[0]), Some(0));
    assert_eq!(rt; first_unsound(&[2147483649, 8, 26, 0, 0, 0]), Some(3));
    assert_eq!(rt; first_unsound(&[2147483649, 8, 27]), Some(0), "another sum");
    assert_eq!(rt;
        first_unsound(&[2147483649, 8, 26, 2147483650, 0, 3]),
        Some(3),
        "one past the end"
    );
    assert_eq!(rt;
        first_unsound(&[2147483649, 8]),
        Some(0),
        "no room for a head"
    );
    assert_eq!(rt;
        first_unsound(&[2147483648, 0, 1, 1]),
        Some(3),
        "behind a free block"
    );
    assert_eq!(rt;
        first_unsound(&[2147483648, 0, 1, 0]),
        Some(0),
        "an even cell counts as free"
    );
    assert!(rt; !is_sound(&[2147483649, 8]));
}

#[test]
fn what_should_be_one_free_block(rt: HostRuntime) {
    assert_eq!(rt; first_unsound(&[DEAD, DEAD, DEAD]), Some(0));
    assert_eq!(rt;
        first_unsound(&[2147483649, 8, 26, DEAD, DEAD, DEAD]),
        Some(3)
    );
    assert_eq!(rt;
        first_unsound(&[2147483648, 0, 1, DEAD]),
        Some(0),
        "free before dead"
    );
    assert_eq!(rt;
        first_unsound(&[DEAD, 2147483648, 0, 1]),
        Some(0),
        "dead before free"
    );
    assert_eq!(rt;
        first_unsound(&[DEAD, DEAD, 2147483648, 0, 1]),
        Some(0),
        "two dead before free"
    );
    assert_eq!(rt;
        first_unsound(&[2147483649, 8, 26, 2147483648, 0, 1, 2147483648, 0, 1]),
        Some(3),
        "free before free"
    );
}

#[test]
fn an_owner_with_two(rt: HostRuntime) {
    assert_eq!(rt;
        first_unsound(&[2147483649, 8, 26, 2147483649, 8, 26]),
        Some(3)
    );
    assert_eq!(rt;
        first_unsound(&[
            2147483649, 8, 26, 2147483649, 7, 23, DEAD, 2147483649, 8, 26,
        ],),
        Some(7)
    );
    assert_eq!(rt;
        first_unsound(&[2147483649, 0, 2, 2147483648, 0, 1, 2147483649, 7, 23]),
        None,
        "the owner of a free block is nobody's"
    );
}

#[test]
fn blocks_and_room_are_found(rt: HostRuntime) {
    assert_eq!(rt; find_block(&WORKED, 7), Some(0));
    assert_eq!(rt; find_block(&WORKED, 8), Some(5));
    assert_eq!(rt; find_block(&WORKED, 9), None);
    assert_eq!(rt;
        find_block(&WORKED, 4294967296 + 7),
        None,
        "an owner that fits no cell"
    );
    assert_eq!(rt; find_block(&[], 7), None);
    assert_eq!(rt;
        find_block(&[2147483649, 8, 26, 2147483649, 8, 26], 8),
        Some(0),
        "the first"
    );
    assert_eq!(rt; find_block(&[2147483648, 8, 25], 8), None, "a free block");
    let rooms = [2147483648, 0, 1, 2147483649, 8, 26, 2147483650, 0, 3, 0];
    assert_eq!(rt; find_room(&rooms, 0), Some(0));
    assert_eq!(rt; find_room(&rooms, 1), Some(6), "the first is too short");
    assert_eq!(rt; find_room(&rooms, 2), None);
    assert_eq!(rt; find_room(&WORKED, 0), None, "blocks in use are no room");
    assert_eq!(rt; find_room(&[DEAD, DEAD], 0), None, "dead cells are none");
}

#[test]
fn a_walk_hands_out_what_stands(rt: HostRuntime) {
    let shelf = [
        2147483653, 7, 27, 0, 0, DEAD, 2147483649, 8, 26, 2147483650, 0, 3, 0,
    ];
    let mut walk = Walk::new(&shelf);
    assert_eq!(rt;
        walk.next(),
        Some(Item::InUse {
            place: 0,
            owner: 7,
            length: 2
        })
    );
    assert_eq!(rt; walk.next(), Some(Item::Dead { place: 5 }));
    assert_eq!(rt;
        walk.next(),
        Some(Item::InUse {
            place: 6,
            owner: 8,
            length: 0
        })
    );
    assert_eq!(rt;
        walk.next(),
        Some(Item::Free {
            place: 9,
            length: 1
        })
    );
    assert_eq!(rt; walk.next(), None);
    assert_eq!(rt; walk.next(), None);
}

// A different owner for each k below 2^31 - 1, in no order.
pub fn owner_of(k: u32) -> u32 {
    (k as u64 * 1_103_515_245 % 0x7fff_ffff) as u32
}

// As many blocks in use as a shelf can have, and one dead cell.
fn crowded(heap: Global) -> Result<Vec<u32>, AllocError> {
    let mut shelf = vec![in heap; DEAD; 100_000]?;
    crowd(shelf.as_mut_slice(), owner_of);
    Ok(shelf)
}

#[test]
fn a_crowded_shelf(rt: HostRuntime) -> Result<(), Fail> {
    let mut shelf = crowded(rt.alloc())?;
    assert_eq!(rt; first_unsound(shelf.as_slice()), None);
    for n in 0..34u32 {
        let place = 3000 * n as usize;
        assert_eq!(rt;
            find_block(shelf.as_slice(), owner_of(1000 * n + 1) as u64),
            Some(place)
        );
    }
    assert_eq!(rt;
        find_block(shelf.as_slice(), owner_of(33_333) as u64),
        Some(99_996)
    );
    put_block(shelf.as_mut_slice(), 99_996, owner_of(1));
    assert_eq!(rt; first_unsound(shelf.as_slice()), Some(99_996));
    Ok(())
}
