// Reading rows, and which earlier row has an equal value.
ghost use Rattle.std.specs.Prelude.{◌≡◌, ◌≤◌, Some, None, length, IfOk, MatchResult};
ghost use Rattle.std.specs.List.{All};
ghost use Rattle.store.specs.Makers.{gathered};
ghost use Rattle.store.specs.declared.fault.StoreFault.TheVariants.{Invalid};
ghost use Rattle.rows.specs.Rows.{values, values_at, row_value, meaning};
ghost use Rattle.rows.specs.Classes.{IsRow, IsFirst, IsOfFirst, place_of, entry_at, value_at};

use crate::entry::{Entry, Row};
use crate::hash;
use crate::rows::Rows;
use program::parts::Parts;
use store::fault::StoreFault;

impl Rows {
    // A row by its number.
    pub(crate) fn entry(&self, number: usize) -> &Entry
        requires { IsRow self.now.entries.items number }
        ensures { result.now ≡ entry_at self.now.entries.items number }
    {
        &self.entries[number]
    }

    // The class of a row that is to be added: the number of the first row with its value, or the count of rows.
    pub(crate) fn class_of(&self, row: &Row) -> usize
        requires { IsOfFirst self.now.entries.items row.now }
        ensures { result ≡ place_of (row_value (values self.now.entries.items) row.now) (values self.now.entries.items) }
    {
        let mut at = self.heads[hash::chain(row)];
        while at > 0 {
            let entry = self.entry(at as usize - 1);
            if entry.row == *row {
                return entry.class as usize;
            }
            at = entry.next;
        }
        self.entries.len()
    }

    // The number of a handle's row.
    pub(crate) fn number(&self, handle: u32) -> Result<usize, StoreFault>
        ensures { MatchResult result
            (λ k. IsRow self.now.entries.items k × (meaning self.now.entries.items handle ≡ Some (value_at self.now.entries.items k)))
            (λ e. (e ≡ Invalid) × (meaning self.now.entries.items handle ≡ None)) }
    {
        if handle as usize >= self.entries.len() {
            return Err(StoreFault::Invalid);
        }
        Ok(handle as usize)
    }

    // The row of a handle.
    pub(crate) fn row(&self, handle: u32) -> Result<&Row, StoreFault>
        ensures { MatchResult result
            (λ r. IsOfFirst self.now.entries.items r.now × (meaning self.now.entries.items handle ≡ Some (row_value (values self.now.entries.items) r.now)))
            (λ e. (e ≡ Invalid) × (meaning self.now.entries.items handle ≡ None)) }
    {
        Ok(&self.entry(self.number(handle)?).row)
    }

    // The first row with the value of a handle.
    pub(crate) fn first(&self, handle: u32) -> Result<u16, StoreFault>
        ensures { MatchResult result
            (λ k. IsFirst self.now.entries.items k × (meaning self.now.entries.items handle ≡ Some (value_at self.now.entries.items k)))
            (λ e. (e ≡ Invalid) × (meaning self.now.entries.items handle ≡ None)) }
    {
        Ok(self.entry(self.number(handle)?).class)
    }

    // The first rows with the values of some handles.
    pub(crate) fn firsts(&self, handles: &[u32]) -> Result<Parts, StoreFault>
        requires { length handles.now ≤ 8 }
        ensures count { IfOk result (λ ks. length ks ≡ length handles.now) }
        ensures values { MatchResult result
            (λ ks. All (IsFirst self.now.entries.items) ks × (gathered (meaning self.now.entries.items) handles.now ≡ Some (values_at (values self.now.entries.items) ks)))
            (λ e. (e ≡ Invalid) × (gathered (meaning self.now.entries.items) handles.now ≡ None)) }
    {
        let mut parts = Parts::new();
        for handle in handles {
            parts.push(self.first(*handle)?);
        }
        Ok(parts)
    }
}
