// Plans of requests: each only reads, and decides the refusal by the first number of the list that applies.
ghost use Rattle.std.specs.Prelude.{◌≡◌, ◌+◌, ◌<◌, ◌≤◌, cond, length};
ghost use Rattle.shelf.specs.Walk.{next};
ghost use Rattle.shelf.specs.Sound.{idle};
ghost use Rattle.requests.specs.Entry.{usable};
ghost use Rattle.requests.specs.Plans.{within_limit, admitted, take_plan, give_plan, set_plan, idle_start, idle_end};

use crate::plans::{Giving, Setting, Taking};
use crate::refusal::Refusal;
use block::{Shelf, block_size, row_length};
use shelf::{Walk, find_block, find_room, is_sound, next_place};

// Whether requests can be carried out on a shelf: it is sound and not too long.
pub fn is_usable(shelf: &[u32]) -> bool
    ensures { result ≡ usable shelf.now }
{
    shelf.len() <= Shelf::MOST && is_sound(shelf)
}

// A number below the limit, of owners and of cells.
fn below_limit(number: u64) -> Result<u32, Refusal>
    ensures { result ≡ within_limit number }
{
    match u32::try_from(number) {
        Ok(small) if small < Shelf::LIMIT => Ok(small),
        _ => Err(Refusal::TooLarge),
    }
}

// The owner, where the shelf can be used and there may be such an owner: what all requests ask first.
pub fn admit(shelf: &[u32], whose: u64) -> Result<u32, Refusal>
    ensures { result ≡ admitted shelf.now whose }
{
    if !is_usable(shelf) {
        return Err(Refusal::Unusable);
    }
    below_limit(whose)
}

// The first free block that is long enough is to be taken, where there is room.
pub fn plan_take(shelf: &[u32], whose: u64, long: u64) -> Result<Option<Taking>, Refusal>
    ensures { result ≡ take_plan shelf.now whose long }
{
    let owner = admit(shelf, whose)?;
    if find_block(shelf, whose).is_some() {
        return Err(Refusal::HoldsOne);
    }
    if long > Shelf::MOST as u64 {
        return Err(Refusal::OutOfRange);
    }
    let long = long as usize;
    Ok(find_room(shelf, long).map(|place| Taking {
        place,
        size: block_size(shelf[place]),
        owner,
        long,
    }))
}

// Where the free things begin that end at a place of the walk: behind the last block in use before it.
fn idle_start_of(shelf: &[u32], end: usize) -> usize
    requires { end ≤ length shelf.now }
    ensures { result ≡ idle_start (length shelf.now) shelf.now end 0 0 }
{
    Walk::new(shelf)
        .take_while(|item| item.place() < end)
        .filter(|item| !item.is_idle())
        .fold(0, |_, item| item.end())
}

// Where the free things end that begin at a place of the walk.
fn idle_end_of(shelf: &[u32], begin: usize) -> usize
    ensures { result ≡ idle_end (length shelf.now) shelf.now begin }
{
    Walk::starting_at(shelf, begin)
        .take_while(|item| item.is_idle())
        .fold(begin, |_, item| item.end())
}

// A block is to be given back with what is free on both sides of it.
pub fn plan_give(shelf: &[u32], whose: u64) -> Result<Giving, Refusal>
    ensures { result ≡ give_plan shelf.now whose }
{
    admit(shelf, whose)?;
    let place = find_block(shelf, whose).ok_or(Refusal::HoldsNone)?;
    Ok(Giving {
        place,
        from: idle_start_of(shelf, place),
        end: idle_end_of(shelf, next_place(shelf, place)),
    })
}

// A cell of somebody's row is to be set.
pub fn plan_set(shelf: &[u32], whose: u64, cell: u64, to: u64) -> Result<Setting, Refusal>
    ensures { result ≡ set_plan shelf.now whose cell to }
{
    admit(shelf, whose)?;
    let to = below_limit(to)?;
    let place = find_block(shelf, whose).ok_or(Refusal::HoldsNone)?;
    if cell >= row_length(shelf[place]) as u64 {
        return Err(Refusal::OutOfRange);
    }
    Ok(Setting {
        place,
        size: block_size(shelf[place]),
        cell: cell as usize,
        to,
    })
}
