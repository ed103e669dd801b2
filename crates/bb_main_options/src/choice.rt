//! The options of a command line. `options` returns them, and programs (bb_main) obey them.

/// The maximum number of cycles of a run if the words give no limit.
pub const CYCLE_LIMIT: u32 = 1_000_000;

/// The minimum rating of the activations that a run chooses if the words give no floor.
pub const FLOOR: i64 = 0;

/// What is done with an input.
#[derive(Clone, Copy, Debug, PartialEq, Eq)]
pub enum Mode {
    /// Runs the input and writes its trace.
    Run,
    /// Verifies the sources and writes what their parts cost.
    Check,
    /// Compiles the sources that are text and writes their bundle.
    Compile,
    /// Runs the input and writes the units it leaves, as a document of initial units.
    Units,
}

/// The options that a command line chooses.
#[derive(Clone, Copy, Debug, PartialEq, Eq)]
pub struct Options {
    pub mode: Mode,
    /// The maximum number of cycles of a run.
    pub limit: u32,
    /// The minimum rating of the activations that a run chooses.
    pub floor: i64,
}
