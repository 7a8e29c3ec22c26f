// Which terms a role can compose from what it knows, with no name made: all of them at once, parts before wholes.
ghost use Rattle.std.specs.Prelude.{◌≡◌, MatchResult};
ghost use Rattle.roles.specs.declared.fault.Fault.TheVariants as faults;
ghost use Rattle.roles.specs.Composed.{Knows, Composable, MarksKnown, row_composable};

use crate::fault::Fault;
use crate::party::Party;
use crate::state::RoleState;
use crate::view::View;
use program::marks::Marks;
use terms::term::TermRow;

impl RoleState {
    pub(crate) fn composable(&self, view: View) -> Result<Marks, Fault>
        requires { Knows view.table.now self.now }
        ensures { MatchResult result (λ v. Composable view.entry.table.now view.entry.party.now self.now v) (λ e. e ≡ faults.Exhausted (record { seen = tt })) }
    {
        let count = view.table.len();
        let mut composable = self.known_terms(count)?;
        // by number: `row` says that the row of a number stands in the table, and a mark is set while those of the parts are read
        for term in 0..count {
            if !composable.has(term)
                && from_parts(view.party, view.table.row(term as u16), &composable)
            {
                composable.mark(term);
            }
        }
        Ok(composable)
    }

    // For each of so many terms, whether it is known.
    fn known_terms(&self, count: usize) -> Result<Marks, Fault>
        ensures { MatchResult result (λ v. MarksKnown count self.now v) (λ e. e ≡ faults.Exhausted (record { seen = tt })) }
    {
        let mut known = Marks::new(*self.known.allocator(), count)?;
        for held in &self.known {
            known.mark(held.term as usize);
        }
        Ok(known)
    }
}

// Can a compound be made of its parts?
fn from_parts(party: &Party, row: TermRow, composable: &Marks) -> bool
    ensures { result ≡ row_composable party.now row composable.now }
{
    match row {
        TermRow::Name(_) => false,
        TermRow::Compound { kind, parts } => {
            party.may_make(kind) && composable.has_all(parts.as_slice())
        }
    }
}
