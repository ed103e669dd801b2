//! A value that is dropped by one call. A function with many exits keeps an enum, or several values of many parts, in
//! one.

ghost use Rattle.std.specs.Prelude.{◌≡◌};

/// A value that is dropped by one call. At each exit of a function, the proof checks that call instead of the drop of
/// each part of the value. This only saves time in proofs.
pub struct Whole<T: Drop> {
    /// The value.
    pub value: T,
}

// By hand, so that proofs see a drop as one call, not one per part.
impl<T: Drop> Drop for Whole<T> {
    fn drop(self) {
        let Whole { value: _ } = self;
    }
}

impl<T: Drop> Whole<T> {
    /// Wraps a value.
    pub fn of(value: T) -> Whole<T>
        ensures { result.value ≡ value }
    {
        Whole { value }
    }

    /// Returns the value.
    pub fn out(self) -> T
        ensures { result ≡ self.value }
    {
        let Whole { value } = self;
        value
    }
}
