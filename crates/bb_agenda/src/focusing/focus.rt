//! A focus: what raises or lowers the ratings of pending activations. bb_run_plan reports to the agenda which units are
//! foci.

use bb_basis::Text;

/// A focus of attention, by the slots of a unit of the built-in class `focus`. Control as data on the blackboard is an
/// idea of Hayes-Roth (1985); the weights and their sum are this project's.
#[derive(Drop)]
pub struct Focus {
    /// The name of the source whose activations it matches. If empty, it matches the activations of all sources.
    pub source: Text,
    /// The name of a class. The focus matches activations of sources on the class or its descendants. If empty, it
    /// matches the activations of all sources.
    pub area: Text,
    /// What it adds to the rating of every activation that it matches.
    pub weight: i64,
    /// Whether it matches anything at all.
    pub active: bool,
}
