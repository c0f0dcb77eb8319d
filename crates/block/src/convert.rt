// A head from its first cell, and to it.
ghost use Rattle.block.specs.Head.{Reads, Tells};

use crate::head::Head;
use crate::limits::Shelf;

// The cell is no first cell of a head.
#[derive(Clone, Copy, PartialEq, Eq, Debug)]
pub struct NoHead(pub u32);

impl TryFrom<u32> for Head {
    type Error = NoHead;

    ghost try_from_gives = { Reads };

    fn try_from(cell: u32) -> Result<Self, NoHead> {
        if cell < Shelf::MARK || cell == Shelf::DEAD {
            return Err(NoHead(cell));
        }
        Ok(Head {
            length: (cell - Shelf::MARK) / 2,
            in_use: cell % 2 == 1,
        })
    }
}

impl From<Head> for u32 {
    ghost from_gives = { Tells };

    fn from(head: Head) -> u32 {
        Shelf::MARK + 2 * head.length + head.in_use as u32
    }
}
