// Random hits on the cells of a shelf.
use crate::counts::count;
use crate::trial::Trial;
use block::{Shelf, write_block};
use random::Random;

// What a hit makes of a cell.
fn random_hit(random: &mut Random, cell: u32) -> u32 {
    match random.below(6) {
        0 => random.cell(),
        1 | 2 => cell ^ 1u32.wrapping_shl(random.cell() % 32),
        3 => Shelf::MARK | random.cell() % 64,
        4 => Shelf::DEAD,
        _ => random.cell() % 64,
    }
}

impl Trial<'_> {
    fn hit_cell(&mut self) {
        let place = self.random.place(self.shelf.len());
        if let Some(cell) = self.shelf.get_mut(place) {
            *cell = random_hit(&mut self.random, *cell);
        }
        count(&mut self.counts.hits);
    }

    // A block in use, written as if by hits, of somebody who holds one or of anybody.
    fn forge_block(&mut self) {
        let place = self.random.place(self.shelf.len());
        let size = Shelf::HEAD + self.random.cell() as usize % 4;
        let cells = self.shelf.as_mut_slice();
        let Some(part) = cells.get_mut(place..place.wrapping_add(size)) else {
            return;
        };
        let owner = match self.list.draw(&mut self.random) {
            Some(holding) => holding.owner,
            None => self.random.next(),
        };
        write_block(part, true, (owner % Shelf::LIMIT as u64) as u32);
        self.counts.hits = self.counts.hits.wrapping_add(size as u64);
    }

    // So many hits, each by itself, and now and then a whole block.
    pub fn hit_some(&mut self, how_many: u64) {
        if self.random.below(8) == 0 {
            self.forge_block();
        }
        for _ in 0..how_many {
            self.hit_cell();
        }
    }
}
