// Reads commands, a line each, and writes what they answer.
#![tactic(auto)]

mod answering;

use answering::{Answer, answer_to, refused};
use dispatch::{Request, show};
use shelf::{Item, Walk};
use std::io;
use std::io::{BufRead, BufReader, BufWriter, Write};
use text::{Listed, Spaced};

// No struct of the output and the shelf: it would be made for one call.

// A line for each block in use along the shelf.
fn write_in_use<W: Write>(out: &mut W, shelf: &[u32]) -> io::Result<()> {
    for item in Walk::new(shelf) {
        if let Item::InUse {
            place,
            owner,
            length,
        } = item
        {
            let listed = Listed {
                owner,
                place,
                length,
            };
            writeln!(out, "{listed}")?;
        }
    }
    Ok(())
}

// What somebody holds, or why it isn't shown.
fn write_held<W: Write>(out: &mut W, shelf: &[u32], whose: u64) -> io::Result<()> {
    match show(shelf, whose) {
        Ok(Some(row)) => writeln!(out, "{}", Spaced(row)),
        Ok(None) => writeln!(out, "none"),
        Err(why) => {
            let place = Request::Give { whose }.refused_at(shelf, why);
            writeln!(out, "{}", refused(why, place))
        }
    }
}

// Not closures: the contract of `answer_to` says which answer it is.
fn write_answer<W: Write>(out: &mut W, shelf: &[u32], answer: Answer) -> io::Result<()> {
    match answer {
        Answer::Nothing => Ok(()),
        Answer::All => writeln!(out, "{}", Spaced(shelf)),
        Answer::AllInUse => write_in_use(out, shelf),
        Answer::Held(whose) => write_held(out, shelf, whose),
        Answer::NoRoom => writeln!(out, "no room"),
    }
}

fn run(rt: &HostRuntime) -> anyhow::Result<()> {
    let heap = rt.alloc();
    let mut input = BufReader::new(heap, rt.stdin())?;
    let mut out = BufWriter::new(heap, rt.stdout())?;
    let mut shelf = Vec::new(heap);
    let mut bytes = Vec::new(heap);
    // Nothing says that the input ends, so the lines are counted; a refusal names its line.
    for line in 0..u64::MAX {
        bytes.clear();
        if input.read_until(b'\n', &mut bytes)? == 0 {
            break;
        }
        match answer_to(&mut shelf, line, bytes.as_slice())? {
            Ok(answer) => write_answer(&mut out, shelf.as_slice(), answer)?,
            Err(refused) => writeln!(out, "{refused}")?,
        }
    }
    out.flush()?;
    Ok(())
}

fn main(rt: HostRuntime) -> anyhow::Result<()> {
    run(&rt)
}
