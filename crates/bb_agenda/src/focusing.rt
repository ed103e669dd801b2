//! How foci rate activations: which activations a focus matches, and the rating of an activation, which is its base
//! plus the weights of the foci that match it. agenda.rt rates by it.

mod activation;
mod aim;
mod foci;
mod focus;
mod setting;
mod steering;

pub use activation::Activation;
pub use focus::Focus;
pub use setting::{RatedSource, Setting};
pub use steering::Steering;
