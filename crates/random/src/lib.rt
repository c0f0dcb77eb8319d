// Numbers that look random and are the same in every run: xorshift64*, from a seed. Trials and the benchmark
// draw from it.
#![tactic(auto)]

ghost use Rattle.std.specs.Prelude.{◌≡◌, cond, ◌%◌, eqb};
ghost use Rattle.random.specs.Drawing.{start, stirred, drawn};

// What the next number is drawn from.
#[derive(Drop)]
pub struct Random {
    state: u64,
}

impl Random {
    // From a seed; the state is odd, so it is never nought.
    pub fn new(seed: u64) -> Random
        ensures { result.state ≡ start seed }
    {
        Random {
            state: seed.wrapping_mul(0x9e37_79b9_7f4a_7c15) | 1,
        }
    }

    // The next number, of 48 bits.
    pub fn next(&mut self) -> u64
        ensures value { result ≡ drawn self.new.state }
        ensures state { self.new.state ≡ stirred self.old.state }
    {
        let mut x = self.state;
        x ^= x >> 12;
        x ^= x << 25;
        x ^= x >> 27;
        self.state = x;
        x.wrapping_mul(0x2545_f491_4f6c_dd1d) >> 16
    }

    // A number below an end, nought where that is nought.
    pub fn below(&mut self, end: u64) -> u64
        ensures value { result ≡ cond (eqb end 0) 0 (drawn self.new.state % end) }
        ensures state { self.new.state ≡ stirred self.old.state }
    {
        let x = self.next();
        if end == 0 { 0 } else { x % end }
    }

    // A place on a shelf of so many cells, nought where it has none.
    pub fn place(&mut self, cells: usize) -> usize
        ensures value { result ≡ cond (eqb cells 0) 0 (drawn self.new.state % cells) }
        ensures state { self.new.state ≡ stirred self.old.state }
    {
        self.below(cells as u64) as usize
    }

    // A whole cell.
    pub fn cell(&mut self) -> u32
        ensures value { result ≡ drawn self.new.state % 4294967296 }
        ensures state { self.new.state ≡ stirred self.old.state }
    {
        (self.next() % 0x1_0000_0000) as u32
    }
}
