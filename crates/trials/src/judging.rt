// Whether a mended shelf is what it should be, from the list, the shelf before the hits, and the one after them.
use crate::counts::{Counts, count};
use crate::list::{Holding, List};
use anyhow::anyhow;
use dispatch::{Request, carry_out};
use requests::{Book, Refusal};
use shelf::{find_block, is_sound};

// A shelf before some hits, after them, and mended, with all that was held before and all that stands after.
#[derive(Drop)]
pub struct Judge<'a> {
    pub counts: &'a mut Counts,
    pub before: &'a [u32],
    pub hit: &'a [u32],
    pub mended: &'a [u32],
    pub held: &'a List,
    pub standing: &'a List,
}

// Whether two shelves have the same cells where a holding is.
fn same_cells(one: &[u32], other: &[u32], holding: &Holding) -> bool {
    let (place, end) = (holding.place, holding.end());
    one.get(place..end) == other.get(place..end)
}

impl Judge<'_> {
    // Whether a hit cell is in a block.
    fn is_hit(&self, holding: &Holding) -> bool {
        !same_cells(self.before, self.hit, holding)
    }

    // Whether an earlier block with a hit cell stands now as the same owner's.
    fn is_forestalled(&self, holding: &Holding) -> bool {
        self.standing
            .held_by(holding.owner)
            .is_some_and(|other| other.place < holding.place && self.is_hit(other))
    }

    // Whether a block still stands, as its owner's.
    fn is_kept(&self, holding: &Holding) -> bool {
        self.standing.has(holding) && find_block(self.mended, holding.owner) == Some(holding.place)
    }

    // Each block that was not hit stands as it stood, unless an earlier one with a hit cell is its owner's.
    fn judge_kept(&mut self) -> anyhow::Result<()> {
        for holding in &self.held.holdings {
            if self.is_kept(holding) {
                count(&mut self.counts.kept);
            } else if self.is_hit(holding) || self.is_forestalled(holding) {
                count(&mut self.counts.lost);
            } else {
                return Err(anyhow!("a block that was not hit is lost"));
            }
        }
        Ok(())
    }

    // Each block that stands has a hit cell or was held before, and mending wrote none of its cells.
    fn judge_standing(&mut self) -> anyhow::Result<()> {
        for holding in &self.standing.holdings {
            if !same_cells(self.hit, self.mended, holding) {
                return Err(anyhow!("mending wrote into a block"));
            }
            if !self.held.has(holding) {
                if !self.is_hit(holding) {
                    return Err(anyhow!("somebody holds a block that was not hit nor theirs"));
                }
                count(&mut self.counts.forged);
            }
        }
        Ok(())
    }

    // Blocks share no cell, and nobody has two.
    fn judge_apart(&self) -> anyhow::Result<()> {
        let standing = self.standing;
        for holding in &standing.holdings {
            if !holding.is_apart(standing.holdings.as_slice())
                || holding.end() > self.mended.len()
            {
                return Err(anyhow!("two blocks share a cell"));
            }
            if !standing.has(holding) {
                return Err(anyhow!("somebody has two blocks"));
            }
        }
        Ok(())
    }

    // All that should hold of a mended shelf.
    pub fn judge_all(&mut self) -> anyhow::Result<()> {
        if !is_sound(self.mended) {
            return Err(anyhow!("a mended shelf is not sound"));
        }
        self.judge_kept()?;
        self.judge_standing()?;
        self.judge_apart()
    }
}

// A shelf that was hit and isn't sound refuses every request by 1, unusable, and stays as it is.
pub fn judge_refusals(shelf: &mut [u32], hit: &[u32]) -> anyhow::Result<()> {
    if is_sound(hit) {
        return Ok(());
    }
    let requests = [
        Request::Take { whose: 0, long: 0 },
        Request::Give { whose: 0 },
        Request::Set {
            whose: 0,
            cell: 0,
            to: 0,
        },
    ];
    for request in requests {
        let mut book = Book { cells: shelf };
        if carry_out(&mut book, request) != Err(Refusal::Unusable) || *book.cells != *hit {
            return Err(anyhow!("a shelf that isn't sound doesn't refuse by 1"));
        }
    }
    Ok(())
}
