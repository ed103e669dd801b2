//! A focus among the initial units. The check reads them (bb_diag), and warns of names that do not exist (bb_lint).

/// A focus among the initial units: its index in the list `units`, and the names of a source and a class that it has,
/// each empty if it has none.
#[derive(Drop)]
pub struct FirstFocus {
    pub index: usize,
    pub source: String,
    pub area: String,
}
