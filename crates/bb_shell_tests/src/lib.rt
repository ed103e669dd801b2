//! Tests across crates that no case can make: whether two schemas are the same; natives and what they ask for; a shell
//! that a host makes from its own board and sources; and the numbers and reports of refusals.
#![tactic(auto)]

#[cfg(test)]
mod asking;
mod input;
#[cfg(test)]
mod looking;
#[cfg(test)]
mod natives;
#[cfg(test)]
mod outcome;
#[cfg(test)]
mod outside;
#[cfg(test)]
mod refusals;
#[cfg(test)]
mod refused;
#[cfg(test)]
mod reports;
mod role;
#[cfg(test)]
mod schemas;
#[cfg(test)]
mod shells;
#[cfg(test)]
mod unread;

pub use input::{FIRST, HAIL, Input, NOTE_SCHEMA, ONE_NOTE};
pub use role::Role;
