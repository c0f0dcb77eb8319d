// The marks and limits of a shelf of cells.

// A row of cells that holds blocks.
pub struct Shelf;

impl Shelf {
    // the least first cell of a head
    pub const MARK: u32 = 0x8000_0000;
    // a dead cell: free, and too few together for a head
    pub const DEAD: u32 = u32::MAX;
    // owners, checksums and the cells of rows are below it; checksums are taken modulo it
    pub const LIMIT: u32 = 0x7fff_ffff;
    // the most cells that a shelf may have
    pub const MOST: usize = 100_000;
    // the cells of a head, and the fewest that can be mended
    pub const HEAD: usize = 3;
}
