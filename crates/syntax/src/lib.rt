// The shape of a specification: from a tree to declarations, lines and terms.
#![tactic(auto)]

pub mod fault;
mod name;
mod shape;
mod shape_declaration;
mod shape_line;
mod shape_term;
pub mod source;
pub mod spec;
pub mod symbol;
