//! The limits that `find` uses to choose its fast paths, each with its reason. This crate and bb_query use them. No
//! result depends on one; `bench/rivals.py` shows their effect on times.
//!
//! The unit of cost is a step along an ordered set or map. A look-up among 65,535 members costs about fifty steps.

/// Fewer units than this are looked up one by one, since anything that saves a look-up must be built first.
pub const FEW_UNITS: usize = 16;

/// Units are close together if at least one in this many numbers is among them. Then all members from the first to the
/// last are visited: a few steps for each unit instead of a look-up.
pub const CLOSE_NUMBERS: u64 = 4;

/// Units are marked if at least one in this many numbers is among them. A mark is a byte, and all are allocated at
/// once; with more marks for each unit, they cost as much as a look-up.
pub const MARKED_NUMBERS: u64 = 512;

/// The maximum number of steps, for each unit of a list, in a scan over the index keys that a test asks for. The scan
/// may save that unit's look-up, which costs about fifty.
pub const STEPS_TO_A_UNIT: usize = 32;

/// The maximum number of candidates for a test in the first round. With this few, it is not worth searching for fewer.
pub const FIRST_CANDIDATES: usize = 64;

/// The growth factor of the maximum in each round, if no test of a pattern had few enough. Steps wasted in earlier
/// rounds then amount to a third of the next maximum.
pub const MORE_CANDIDATES: usize = 4;

/// The maximum number of rounds, including the first: 64 candidates have then grown to 65,536, the maximum number of
/// units.
pub const ROUNDS: u32 = 6;

/// The cost of a candidate that has to be sorted, relative to one that is found in order.
pub const SORTED: usize = 4;

/// The cost in steps of a candidate that is found: it is listed, and then looked up. All rounds and tests together may
/// spend one step for each member of the space. After that, all members are scanned instead. A `find` therefore costs
/// at most 1.5 times a scan that tests every member; 1.25 times was measured.
pub const FOUND: usize = 4;
