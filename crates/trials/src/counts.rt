// What a run has counted.
use std::fmt;

#[derive(Clone, Copy, Default)]
pub struct Counts {
    pub requests: u64,
    pub refused: u64,
    pub no_room: u64,
    pub hits: u64,
    pub mendings: u64,
    // holdings that stand after a mending as they stood before the hits
    pub kept: u64,
    // holdings of before that don't
    pub lost: u64,
    // blocks that stand after a mending and did not before
    pub forged: u64,
}

impl fmt::Display for Counts {
    fn fmt<W: fmt::Write>(&self, f: &mut fmt::Formatter<W>) -> fmt::Result {
        writeln!(
            f,
            "requests {} refused {} no room {}",
            self.requests, self.refused, self.no_room
        )?;
        write!(
            f,
            "hits {} mendings {} kept {} lost {} forged {}",
            self.hits, self.mendings, self.kept, self.lost, self.forged
        )
    }
}

// One more.
pub fn count(number: &mut u64) {
    *number = number.wrapping_add(1);
}
