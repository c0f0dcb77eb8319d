// The laws of a block, each as the contract of a function.
ghost use Rattle.block.specs.Laws.{ToldByParts, HasOneHead, NeverOverlap, ToldByOwnCells, WrittenAndRead};

// A block stands just where the parts of the test hold.
pub fn blocks_told_by_parts()
    ensures { ToldByParts }
{}

// The first cell of a block is a head's, and no other cell of it is one or a dead cell.
pub fn blocks_have_one_head()
    ensures { HasOneHead }
{}

// Two blocks that stand never overlap, whatever the cells are.
pub fn blocks_never_overlap()
    ensures { NeverOverlap }
{}

// A block is told by its own cells alone.
pub fn blocks_told_by_own_cells()
    ensures { ToldByOwnCells }
{}

// A block that is written stands, with what was written, and one that stands is as it would be written.
pub fn blocks_written_and_read()
    ensures { WrittenAndRead }
{}
