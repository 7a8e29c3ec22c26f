// What a role composes and settles by.
use crate::party::Party;
use terms::table::TermTable;

// The terms by number, and what the role may make of them. A role's state is no part of it, though it must know only these terms
// and keep them in order: each method that changes it would owe a clause that the view stays.
#[derive(Clone, Copy)]
pub(crate) struct View<'a> {
    pub(crate) table: &'a TermTable,
    pub(crate) party: &'a Party,
}
