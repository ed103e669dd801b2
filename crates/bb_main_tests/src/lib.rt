//! Tests of the program and of runs held by C: readers and writers that fail, words, and moves, which no case can make.
//! They are in one crate so that the gate proves those crates only once.
#![tactic(auto)]

#[cfg(test)]
mod held;
#[cfg(test)]
mod long_run;
#[cfg(test)]
mod readers;
#[cfg(test)]
mod refusals;
#[cfg(test)]
mod words;
#[cfg(test)]
mod writers;
