//! The versions of a code. A byte of the code states its version.

/// The version of a code. Ops and tables are the same in both. Under a schema with owning slots, only the second is
/// accepted.
#[derive(Clone, Copy, Debug, PartialEq, Eq)]
pub enum Version {
    One,
    Two,
}
