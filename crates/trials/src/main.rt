// Random requests and random hits on shelves of many lengths, each answer and each mending held against a
// plain list of who holds what. The seeds are fixed; SEED COUNT runs so many shelves from a seed of one's own.
#![tactic(auto)]

mod asking;
mod counts;
mod hitting;
mod judging;
mod list;
mod trial;

use counts::Counts;
use std::env;
use trial::Trial;

const SEED: u64 = 1;

const SHELVES: u64 = 4000;

// A trial; a difference is printed with the shelf before and after.
fn run_trial(rt: &HostRuntime, counts: &mut Counts, seed: u64, number: u64) -> anyhow::Result<()> {
    let mut trial = Trial::new(rt.alloc(), counts, seed, number)?;
    let outcome = trial.run_rounds();
    if let Err(what) = &outcome {
        println!(rt; "seed {seed} shelf {number}: {what}")?;
        println!(rt; "before {:?}", trial.before)?;
        println!(rt; "after {:?}", trial.shelf)?;
    }
    outcome
}

fn run_trials(rt: &HostRuntime, seed: u64, shelves: u64) -> anyhow::Result<()> {
    let mut counts = Counts::default();
    for number in 0..shelves {
        run_trial(rt, &mut counts, seed, number)?;
    }
    println!(rt; "shelves {shelves} {counts}")?;
    println!(rt; "nothing wrong")?;
    Ok(())
}

// The next argument, or a number where there is none.
fn next_number(arguments: &mut env::Args, otherwise: u64) -> anyhow::Result<u64> {
    match arguments.next() {
        Some(text) => Ok(text.as_str().parse()?),
        None => Ok(otherwise),
    }
}

fn main(rt: HostRuntime) -> anyhow::Result<()> {
    let mut arguments = env::args(&rt)?;
    // the program's name
    let _ = arguments.next();
    let seed = next_number(&mut arguments, SEED)?;
    let shelves = next_number(&mut arguments, SHELVES)?;
    run_trials(&rt, seed, shelves)
}
