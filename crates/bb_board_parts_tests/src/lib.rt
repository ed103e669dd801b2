//! Tests of the crates below the blackboard, from bb_basis to bb_links and bb_space: calls with enough memory, and
//! results that no case shows. They are in one crate so that the gate proves those crates only once.
#![tactic(auto)]

#[cfg(test)]
mod basis;
#[cfg(test)]
mod document;
#[cfg(test)]
mod few;
#[cfg(test)]
mod links;
#[cfg(test)]
mod space;
#[cfg(test)]
mod units;
