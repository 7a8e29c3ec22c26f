// The byte tape: a store that keeps its values as bytes, one encoding after the other.
#![tactic(auto)]

mod bytes;
mod calls;
mod encode;
mod header;
mod make;
mod open;
mod parts;
pub mod tape;
#[cfg(test)]
mod tape_tests;
mod walk;
