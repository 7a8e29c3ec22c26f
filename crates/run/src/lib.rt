// Runs of role programs over a store of terms.
#![tactic(auto)]

mod build;
pub mod fault;
mod laws;
mod line;
mod open;
mod registers;
mod room;
pub mod run;
mod said;
mod step;
mod supply;
mod turn;
mod valid;

pub use crate::fault::RunFault;
pub use crate::laws::{calls_keep_runs, values_follow};
pub use crate::run::Run;
