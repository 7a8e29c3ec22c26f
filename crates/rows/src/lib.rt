// The row table: a store of at most 4,096 values, one row each.
#![tactic(auto)]

mod add;
mod ask;
mod empty;
mod entry;
mod equal;
mod hash;
mod lookup;
mod make;
pub mod rows;
#[cfg(test)]
mod rows_tests;
mod table;
