// Making a compound.
ghost use Rattle.store.specs.Makers.{wanted};
ghost use Rattle.program.specs.Actions.{head_of};
ghost use Rattle.rows.specs.Held.{Asked};
ghost use Rattle.rows.specs.Tables.{table, Adds};

use crate::entry::Row;
use crate::rows::Rows;
use program::kind::Kind;
use store::fault::StoreFault;

impl Rows {
    pub(crate) fn make_compound(&mut self, kind: Kind, parts: &[u32]) -> Result<u32, StoreFault>
        requires { Asked kind parts.now }
        ensures { Adds self.old self.new (wanted (table.means self.old) (head_of kind) parts.now) result }
    {
        if parts.len() > 8 {
            return Err(StoreFault::NoPart);
        }
        let parts = self.firsts(parts)?;
        self.add(Row::Compound { kind, parts })
    }
}
