// What is written in answer.
ghost use Rattle.std.specs.Prelude.{Some};
ghost use Rattle.text.specs.Writing.{refused_at, listed, spaced};

use std::fmt;

// A refusal, by its number and by the place or the line that it is about.
#[derive(Clone, Copy, PartialEq, Eq, Debug)]
pub struct Refused {
    // Any number, as it always took: a narrower type would ask more.
    pub number: u64,
    pub place: u64,
}

impl fmt::Display for Refused {
    ghost output = { λ x. Some (refused_at x.number x.place) };

    fn fmt<W: fmt::Write>(&self, f: &mut fmt::Formatter<W>) -> fmt::Result {
        write!(f, "refused {} at {}", self.number, self.place)
    }
}

// A block in use: whose it is, the place of its head, and the length of its row.
#[derive(Clone, Copy, PartialEq, Eq, Debug)]
pub struct Listed {
    pub owner: u32,
    pub place: usize,
    pub length: usize,
}

impl fmt::Display for Listed {
    ghost output = { λ x. Some (listed x.owner x.place x.length) };

    fn fmt<W: fmt::Write>(&self, f: &mut fmt::Formatter<W>) -> fmt::Result {
        write!(f, "{} {} {}", self.owner, self.place, self.length)
    }
}

// Numbers, apart by one blank.
#[derive(Clone, Copy)]
pub struct Spaced<'a>(pub &'a [u32]);

impl fmt::Display for Spaced<'_> {
    ghost output = { λ x. Some (spaced x.0.now) };

    fn fmt<W: fmt::Write>(&self, f: &mut fmt::Formatter<W>) -> fmt::Result {
        let Some((first, others)) = self.0.split_first() else {
            return Ok(());
        };
        write!(f, "{first}")?;
        for n in others {
            write!(f, " {n}")?;
        }
        Ok(())
    }
}
