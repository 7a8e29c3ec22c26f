// What all layers share: the refusals that they answer.
#![tactic(auto)]

mod memory;
mod refusal;

pub use crate::memory::{NoMemory, boxed, push, repeated, reserve, with_room};
pub use crate::refusal::{Cause, Layer, Refusal};
