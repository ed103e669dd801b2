//! The handle of a run held by a host in C. The calls remove the run from it and put it back.

ghost use Rattle.std.specs.Prelude.{◌≡◌, Option, Some, None};
ghost use Rattle.bb_c_run.specs.declared.held.Held.{Held as Sits};
ghost use Rattle.bb_c.specs.Owned.{held_code};
ghost use Rattle.bb_c.specs.Taken.{in_box};

use crate::pointer::Pointer;
use bb_c_run::Held;
use std::alloc::Global;
use std::marker::Model;

/// A run that a host in C holds, or none: `bb_run` of `include/bb.h`. `at` points to a box in the C library's heap,
/// seen as bytes.
#[repr(C)]
pub struct Run {
    at: *mut u8,
    is_open: bool,
    ghost sitting: { Option Sits } by { held_code },
}

impl Model for Run {
    ghost use Rattle.bb_c.specs.Owned.{run_owns};

    ghost also_owns = { λ r. run_owns r.is_open r.at r.sitting };
}

impl Run {
    /// Takes out the run. Nothing is held afterwards.
    pub(crate) fn take(&mut self, alloc: Global) -> Option<Box<Held>>
        ensures taken { in_box result ≡ self.old.sitting }
        ensures none { self.new.sitting ≡ None }
    {
        if !self.is_open {
            return None;
        }
        self.is_open = false;
        let held = unsafe { Box::from_raw(alloc, self.at as *mut Held) };
        Some(held)
    }

    /// Holds a run. Nothing may be held before.
    pub(crate) fn put(&mut self, held: Box<Held>)
        requires { self.old.sitting ≡ None }
        ensures { self.new.sitting ≡ Some held.value }
    {
        self.put_pointer(Pointer::of(held));
    }

    // Holds the run at a pointer. Nothing may be held before.
    fn put_pointer(&mut self, held: Pointer<Held>)
        requires { self.old.sitting ≡ None }
        ensures { self.new.sitting ≡ Some held.value }
    {
        let Pointer { at } = held;
        self.at = at as *mut u8;
        self.is_open = true;
    }
}
