//! Tests of the crates that read and compile sources, and of rules and the agenda: calls with enough memory, and
//! results that no case shows. They are in one crate so that the gate proves those crates only once.
#![tactic(auto)]

#[cfg(test)]
mod agenda;
#[cfg(test)]
mod bundle;
#[cfg(test)]
mod compile;
#[cfg(test)]
mod lang;
#[cfg(test)]
mod rules;
#[cfg(test)]
mod token;
