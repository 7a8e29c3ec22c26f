// Reading text: from bytes to a tree of nodes with their places.
#![tactic(auto)]

mod builder;
pub mod class;
pub mod fault;
pub mod node;
pub mod part;
pub mod reader;
pub mod reading;
pub mod token;
pub mod tree;

pub use crate::reading::read_text;

#[cfg(test)]
mod tests;
