// Plans: which cells a request will write, decided before any is.

// A block to be taken: where a free block stands and how many cells it has, whose the new one will be, and
// how long its row.
#[derive(Clone, Copy, PartialEq, Eq, Debug)]
pub struct Taking {
    pub place: usize,
    pub size: usize,
    pub owner: u32,
    pub long: usize,
}

// A block to be given back: where it stands, and the stretch of free cells that it and what is free beside it
// will be.
#[derive(Clone, Copy, PartialEq, Eq, Debug)]
pub struct Giving {
    pub place: usize,
    pub from: usize,
    pub end: usize,
}

// A cell to be set: where the block stands and how many cells it has, which cell of its row, and to what.
#[derive(Clone, Copy, PartialEq, Eq, Debug)]
pub struct Setting {
    pub place: usize,
    pub size: usize,
    pub cell: usize,
    pub to: u32,
}
