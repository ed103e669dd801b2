//! The error of calls that fail only when memory runs out. Every crate names it in signatures.

use std::alloc::AllocError;

/// The error of a call that fails only when memory runs out.
pub type Memory = AllocError;
