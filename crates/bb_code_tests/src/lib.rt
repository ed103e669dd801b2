//! Tests of codes, of their verification, and of the crates that judge texts and emit their code: every public call
//! that can need memory, with enough of it; limits; and loops compared with a plain program.
#![tactic(auto)]

#[cfg(test)]
mod buffer;
#[cfg(test)]
mod code;
#[cfg(test)]
mod emit;
#[cfg(test)]
mod judge;
#[cfg(test)]
mod loops;
