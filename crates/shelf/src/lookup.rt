// Looks along a shelf: somebody's block, and room for one.
ghost use Rattle.std.specs.Prelude.{◌≡◌, length, is_some};
ghost use Rattle.shelf.specs.Walk.{find, room, has_room, on_shelf};

use crate::walk::Walk;

// The place of somebody's block in use, the first that one comes to.
pub fn find_block(shelf: &[u32], owner: u64) -> Option<usize>
    ensures { result ≡ on_shelf shelf.now (find shelf.now owner) }
{
    Walk::new(shelf)
        .find(|item| item.is_of(owner))
        .map(|item| item.place())
}

// The place of the first free block with so long a row or a longer one.
pub fn find_room(shelf: &[u32], long: usize) -> Option<usize>
    ensures place { result ≡ on_shelf shelf.now (room shelf.now long) }
    ensures test { is_some result ≡ has_room (length shelf.now) shelf.now long 0 }
{
    Walk::new(shelf)
        .find(|item| item.has_room_for(long))
        .map(|item| item.place())
}
