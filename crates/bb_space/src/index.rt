//! The index of a space: the set of the keys of its values (`Place`), and the ranges of the values that can pass a
//! test. `members.rt` keeps the set up to date and asks for candidates.

mod costs;
mod index;
mod leaf;
mod near;
mod pair;
mod place;
mod stretch;
mod thin;

pub use costs::{
    CLOSE_NUMBERS, FEW_UNITS, FIRST_CANDIDATES, FOUND, MARKED_NUMBERS, MORE_CANDIDATES, ROUNDS,
    SORTED,
};
pub(crate) use index::{put_all, take_all};
pub use leaf::Leaf;
pub use near::{collect_near, count_passing, is_few, rise};
pub use pair::few_by_two;
pub use place::Place;
pub use thin::thin_all;
