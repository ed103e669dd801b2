//! Tests of patterns, queries, the blackboard and its document, and rosters of natives: calls with enough memory, and
//! results that no case shows. They are in one crate so that the gate proves those crates only once.
#![tactic(auto)]

#[cfg(test)]
mod board;
#[cfg(test)]
mod board_spaces;
#[cfg(test)]
mod documents;
#[cfg(test)]
mod find;
#[cfg(test)]
mod natives;
#[cfg(test)]
mod pattern;
#[cfg(test)]
mod query;
#[cfg(test)]
mod refused;
