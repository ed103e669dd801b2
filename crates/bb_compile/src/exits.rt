//! The exits of a test: its ops that jump if it fails. The emission of `if` and `with` keeps them until their target is
//! known.

ghost use Rattle.std.specs.Prelude.{◌≡◌};
ghost use Rattle.bb_compile.specs.Bindings.{one_exit, exits_aimed};

use bb_compile_buffer::Buffer;

/// The indices of the one or two ops of a test that jump if it fails.
#[derive(Drop)]
pub struct Exits {
    pub first: u16,
    pub second: Option<u16>,
}

impl Exits {
    /// Returns the exits of a test with one such op.
    pub fn one(first: u16) -> Exits
        ensures { result ≡ one_exit first }
    {
        Exits {
            first,
            second: None,
        }
    }

    /// Sets the target of the ops to the index of the next op.
    pub fn aim(&self, buffer: &mut Buffer)
        ensures { buffer.new ≡ exits_aimed self.now buffer.old }
    {
        buffer.aim(self.first);
        let Some(second) = self.second else {
            return;
        };
        buffer.aim(second);
    }
}
