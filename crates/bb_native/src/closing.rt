//! The closing of a native: its name and the number that it returns when it is closed. `Roster::close_all` returns a
//! list of these.

use bb_basis::Text;

/// The name of a native, and the number that it said when it was closed; 0 before that.
#[derive(Debug, PartialEq, Drop)]
pub struct Closing {
    pub name: Text,
    pub number: i64,
}
