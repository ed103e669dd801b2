//! A box in the C library's heap as its pointer. The handle (run.rt) holds one.

ghost use Rattle.std.specs.Prelude.{◌≡◌};

use std::marker::Model;

/// A boxed value, as its pointer.
pub(crate) struct Pointer<T> {
    pub(crate) at: *mut T,
    pub(crate) ghost value: { T },
}

impl<T> Model for Pointer<T> {
    ghost use Rattle.bb_c.specs.Owned.{boxed};

    ghost also_owns = { λ p. boxed T.row p.at p.value };
}

impl<T: Drop> Pointer<T> {
    /// Returns the pointer of a box, which is not dropped.
    pub(crate) fn of(held: Box<T>) -> Pointer<T>
        ensures { result.value ≡ held.value }
    {
        Pointer {
            at: Box::into_raw(held),
        }
    }
}
