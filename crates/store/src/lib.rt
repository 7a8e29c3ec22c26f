// Stores of values: what every store offers.
#![tactic(auto)]

pub mod call;
pub mod fault;
pub mod history;
pub mod shape;
pub mod store;
