// A shelf under trial: some requests, some hits and a mending, again and again.
use crate::counts::{Counts, count};
use crate::judging::{Judge, judge_refusals};
use crate::list::List;
use anyhow::anyhow;
use block::Shelf;
use random::Random;
use recovery::mend;
use requests::Done;
use std::alloc::Global;

const ROUNDS: u64 = 16;

// A shelf with its list, and what it was before the last hits and after them.
#[derive(Drop)]
pub struct Trial<'a> {
    pub heap: Global,
    pub counts: &'a mut Counts,
    pub random: Random,
    pub shelf: Vec<u32>,
    pub before: Vec<u32>,
    pub hit: Vec<u32>,
    pub list: List,
}

// How many cells the shelf of a trial has: mostly few, and a hundred thousand for each four hundredth.
fn cells_for(random: &mut Random, number: u64) -> usize {
    if number % 400 == 399 {
        return Shelf::MOST;
    }
    let most = match number % 8 {
        0 => 10,
        1..=4 => 100,
        5 | 6 => 400,
        _ => 1998,
    };
    Shelf::HEAD.wrapping_add(random.place(most))
}

// How many hits come before a mending: mostly few.
fn hits_for(random: &mut Random) -> u64 {
    match random.below(4) {
        0 => random.below(48),
        _ => random.below(8),
    }
}

impl<'a> Trial<'a> {
    // An empty shelf, mended.
    pub fn new(
        heap: Global,
        counts: &'a mut Counts,
        seed: u64,
        number: u64,
    ) -> anyhow::Result<Trial<'a>> {
        let mut random = Random::new(seed.wrapping_add(number));
        let cells = cells_for(&mut random, number);
        let mut shelf = vec![in heap; 0; cells]?;
        if mend(shelf.as_mut_slice()) != Ok(Done::Saved) {
            return Err(anyhow!("a new shelf is not mended"));
        }
        let before = shelf.clone()?;
        Ok(Trial {
            heap,
            counts,
            random,
            shelf,
            before,
            hit: Vec::new(heap),
            list: List::new(heap, cells),
        })
    }

    // Mends the shelf that was hit, judges it, and sets the list to what stands.
    fn mend_and_judge(&mut self) -> anyhow::Result<()> {
        count(&mut self.counts.mendings);
        if mend(self.shelf.as_mut_slice()) != Ok(Done::Saved) {
            return Err(anyhow!("a shelf is not mended"));
        }
        let standing = List::standing(self.heap, self.shelf.as_slice())?;
        let mut judge = Judge {
            counts: &mut *self.counts,
            before: self.before.as_slice(),
            hit: self.hit.as_slice(),
            mended: self.shelf.as_slice(),
            held: &self.list,
            standing: &standing,
        };
        judge.judge_all()?;
        self.list = standing;
        self.before = self.shelf.clone()?;
        if mend(self.shelf.as_mut_slice()) != Ok(Done::Saved) || self.shelf != self.before {
            return Err(anyhow!("mending again changes a cell"));
        }
        Ok(())
    }

    // Some requests, some hits, and a mending.
    fn run_round(&mut self) -> anyhow::Result<()> {
        self.before = self.shelf.clone()?;
        let how_many = self.random.below(24);
        self.ask_some(how_many)?;
        self.before = self.shelf.clone()?;
        let how_many = hits_for(&mut self.random);
        self.hit_some(how_many);
        self.hit = self.shelf.clone()?;
        judge_refusals(self.shelf.as_mut_slice(), self.hit.as_slice())?;
        self.mend_and_judge()
    }

    pub fn run_rounds(&mut self) -> anyhow::Result<()> {
        for _ in 0..ROUNDS {
            self.run_round()?;
        }
        Ok(())
    }
}
