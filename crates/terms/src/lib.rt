// Declarations, types and numbered terms.
#![tactic(auto)]

pub mod declarations;
mod declare;
pub mod fault;
pub mod limits;
mod numbering;
mod starting;
pub mod table;
pub mod term;
mod typing;
