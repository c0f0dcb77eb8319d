// How long a soundness test, finding, mending and the requests take on a shelf of 100,000 cells, as multiples
// of one plain pass over its cells.
#![tactic(auto)]

mod shelves;
mod timing;

use bits::Marks;
use recovery::{find_all, mend};
use requests::{Done, Refusal, give_back, set_cell, take_block, view};
use shelf::first_unsound;
use shelves::{CELLS, Column, Order, hit, put_blocks, put_claims, put_noise};
use std::env;
use timing::{Bench, pass};

const SAMPLES: u32 = 31;

// cells left free where a block is to be taken
const ROOM: usize = 96;

// Somebody who holds nothing.
const NEW: u64 = 2_147_483_000;

const COLUMNS: [Column; 7] = [
    Column {
        count: 10,
        order: Order::Counted,
    },
    Column {
        count: 10,
        order: Order::Random,
    },
    Column {
        count: 1_000,
        order: Order::Counted,
    },
    Column {
        count: 1_000,
        order: Order::Random,
    },
    Column {
        count: 33_333,
        order: Order::Counted,
    },
    Column {
        count: 33_333,
        order: Order::Random,
    },
    Column {
        count: 33_333,
        order: Order::Steps,
    },
];

// A number for what a request answers.
// Not From: both types are another crate's.
fn code(answer: Result<Done, Refusal>) -> u64 {
    match answer {
        Ok(Done::NoRoom) => 100,
        Ok(_) => 0,
        Err(refusal) => u64::from(refusal),
    }
}

fn soundness(shelf: &[u32]) -> u64 {
    first_unsound(shelf).unwrap_or(0) as u64
}

fn find(shelf: &[u32], marks: &mut Marks) -> u64 {
    find_all(shelf, marks).unwrap_or(0) as u64
}

fn take_and_give(shelf: &mut [u32]) -> u64 {
    let taken = code(take_block(shelf, NEW, 90));
    let given = code(give_back(shelf, NEW));
    taken.wrapping_add(given)
}

impl Bench<'_> {
    // A row of the table: some work at each column, on a shelf with room and hits. It is told who holds the
    // block in the middle.
    fn print_row<F: FnMut(&mut [u32], u64) -> u64>(
        &mut self,
        name: &str,
        room: usize,
        hits: u32,
        mut work: F,
    ) -> anyhow::Result<()>
        requires { (state : F) (x y : _) → F.pre state x y }
    {
        print!(self.rt; "| {name} |")?;
        for column in COLUMNS {
            let mut shelf = column.shelf(self.rt.alloc(), room)?;
            hit(shelf.as_mut_slice(), hits);
            let whose = column.middle();
            let medians = self.sample(SAMPLES, shelf.as_slice(), |cells| work(cells, whose))?;
            print!(self.rt; " {medians} |")?;
        }
        println!(self.rt; "")?;
        Ok(())
    }

    fn print_find(&mut self, name: &str, hits: u32) -> anyhow::Result<()> {
        let mut marks = Marks::new();
        self.print_row(name, 0, hits, |cells, _| find(cells, &mut marks))
    }

    fn print_mend(&mut self, name: &str, hits: u32) -> anyhow::Result<()> {
        self.print_row(name, 0, hits, |cells, _| code(mend(cells)))
    }

    fn print_undamaged(&mut self) -> anyhow::Result<()> {
        self.print_row("soundness", 0, 0, |cells, _| soundness(cells))?;
        self.print_find("find", 0)?;
        self.print_mend("mend, which finds first", 0)?;
        self.print_row(
            "take 90 and give back",
            ROOM,
            0,
            |cells, _| take_and_give(cells),
        )?;
        self.print_row(
            "set",
            0,
            0,
            |cells, whose| code(set_cell(cells, whose, 0, 5)),
        )?;
        self.print_row("view", 0, 0, |cells, whose| view(cells, whose).len() as u64)
    }

    fn print_damaged(&mut self) -> anyhow::Result<()> {
        self.print_find("find, 10 hits", 10)?;
        self.print_find("find, 100 hits", 100)?;
        self.print_find("find, 1,000 hits", 1_000)?;
        self.print_mend("mend, 10 hits", 10)?;
        self.print_mend("mend, 100 hits", 100)?;
        self.print_mend("mend, 1,000 hits", 1_000)
    }

    // A row of the second table: a shelf that is none of ours.
    fn print_hostile<F: FnOnce(&mut [u32])>(&mut self, name: &str, put: F) -> anyhow::Result<()>
        requires { F.IsAlwaysCallable put }
    {
        let mut shelf = vec![in self.rt.alloc(); 0; CELLS]?;
        put(shelf.as_mut_slice());
        let cells = shelf.as_slice();
        let mut marks = Marks::new();
        let sound = self.sample(SAMPLES, cells, |cells| soundness(cells))?;
        let found = self.sample(SAMPLES, cells, |cells| find(cells, &mut marks))?;
        let mended = self.sample(SAMPLES, cells, |cells| code(mend(cells)))?;
        println!(self.rt; "| {name} | {sound} | {found} | {mended} |")?;
        Ok(())
    }

    // The nanoseconds of one plain pass.
    fn time_pass(&mut self) -> anyhow::Result<u64> {
        let mut shelf = vec![in self.rt.alloc(); 0; CELLS]?;
        put_noise(shelf.as_mut_slice());
        let medians = self.sample(1001, shelf.as_slice(), |cells| pass(cells))?;
        Ok(medians.pass)
    }

    fn print_tables(&mut self) -> anyhow::Result<()> {
        println!(self.rt;
            "| in passes | 10 | 10, random | 1,000 | 1,000, random | 33,333 | 33,333, random | 33,333, steps |"
        )?;
        println!(self.rt; "|---|---|---|---|---|---|---|---|")?;
        self.print_undamaged()?;
        self.print_damaged()?;
        println!(self.rt; "")?;
        println!(self.rt; "| in passes | soundness | find | mend |")?;
        println!(self.rt; "|---|---|---|---|")?;
        self.print_hostile("heads that claim the rest", put_claims)?;
        self.print_hostile("random cells", put_noise)?;
        self.print_hostile("33,333 blocks of one owner", |cells| {
            put_blocks(cells, 33_333, 99_999, |_| 7)
        })?;
        self.print_hostile("16,666 owners with two blocks each", |cells| {
            put_blocks(cells, 33_332, 99_996, |k| (k % 16_666) as u32)
        })
    }

    fn run(&mut self) -> anyhow::Result<()> {
        let pass = self.time_pass()?;
        println!(self.rt; "one pass takes {pass} ns")?;
        println!(self.rt; "")?;
        self.print_tables()?;
        println!(self.rt; "")?;
        println!(self.rt; "all results add up to {}", self.sink)?;
        Ok(())
    }
}

fn main(rt: HostRuntime) -> anyhow::Result<()> {
    let word = env::args(&rt)?.nth(1);
    if word.is_some_and(|word| word.as_str() == "run") {
        return Bench { rt: &rt, sink: 0 }.run();
    }
    println!(rt; "bench run: times a shelf of 100,000 cells, in plain passes over it")?;
    Ok(())
}
