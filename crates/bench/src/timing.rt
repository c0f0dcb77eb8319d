// The median time of some work on a shelf, and of a plain pass beside it; each sample works on a fresh copy,
// which is not timed.
use std::fmt;
use std::time::Instant;

// Medians in nanoseconds: of the work, and of a plain pass over the same cells before each of its samples.
#[derive(Clone, Copy)]
pub struct Medians {
    pub work: u64,
    pub pass: u64,
}

// How many passes the work takes, to one decimal.
impl fmt::Display for Medians {
    fn fmt<W: fmt::Write>(&self, f: &mut fmt::Formatter<W>) -> fmt::Result {
        let tenths = self.work.wrapping_mul(10).checked_div(self.pass);
        let tenths = tenths.unwrap_or(0);
        write!(f, "{}.{}", tenths / 10, tenths % 10)
    }
}

// One plain pass: the cells added up. It is never inlined, so that all that is measured is told in one unit.
#[inline(never)]
pub fn pass(shelf: &[u32]) -> u64 {
    let sum = shelf.iter().fold(0u32, |sum, cell| sum.wrapping_add(*cell));
    u64::from(sum)
}

fn median(times: &mut Vec<u64>) -> u64 {
    times.sort_unstable();
    times.get(times.len() / 2).copied().unwrap_or(0)
}

// What runs the samples.
#[derive(Drop)]
pub struct Bench<'a> {
    pub rt: &'a HostRuntime,
    // takes what each work gives, so that nothing is left out
    pub sink: u64,
}

impl Bench<'_> {
    // The nanoseconds that some work takes.
    fn time<F: FnOnce(&mut [u32]) -> u64>(
        &mut self,
        shelf: &mut [u32],
        work: F,
    ) -> anyhow::Result<u64>
        requires { F.IsAlwaysCallable work }
    {
        let start = Instant::now(self.rt)?;
        let result = work(shelf);
        let span = start.elapsed(self.rt)?;
        self.sink = self.sink.wrapping_add(result);
        Ok(u64::try_from(span.as_nanos()).unwrap_or(u64::MAX))
    }

    // The medians of so many samples.
    pub fn sample<F: FnMut(&mut [u32]) -> u64>(
        &mut self,
        samples: u32,
        shelf: &[u32],
        mut work: F,
    ) -> anyhow::Result<Medians>
        requires { (state : F) (x : _) → F.pre state x }
    {
        let heap = self.rt.alloc();
        let mut works = Vec::new(heap);
        let mut passes = Vec::new(heap);
        for _ in 0..samples {
            let mut copy = Vec::from_slice(heap, shelf)?;
            let cells = copy.as_mut_slice();
            passes.push(self.time(cells, |cells| pass(cells))?)?;
            works.push(self.time(cells, &mut work)?)?;
        }
        Ok(Medians {
            work: median(&mut works),
            pass: median(&mut passes),
        })
    }
}
