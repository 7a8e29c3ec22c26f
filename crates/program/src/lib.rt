// Role programs: actions on registers, their text, and which programs can be held.
#![tactic(auto)]

pub mod action;
pub mod check;
pub mod held;
pub mod kind;
pub mod marks;
pub mod parts;
pub mod print;
pub mod take_up;
#[cfg(test)]
mod tests;
