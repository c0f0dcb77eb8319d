// Worked examples of each layer, run as tests.
#![tactic(auto)]

#[cfg(test)]
mod answers;
#[cfg(test)]
mod asking;
#[cfg(test)]
mod cells;
#[cfg(test)]
mod heads;
#[cfg(test)]
mod lines;
#[cfg(test)]
mod recovering;
#[cfg(test)]
mod refusing;
#[cfg(test)]
mod shelves;
