// The row table. Row k is the value of handle k; its parts are named by the first rows with their values.
ghost use Rattle.std.specs.Prelude.{◌≡◌, ◌≤◌, length, vec_capacity};
ghost use Rattle.std.proofs.Props.{props};
ghost use Rattle.store.specs.StorableFact.{storable_prop};
ghost use Rattle.rows.specs.Classes.{Classed, Earlier, First};
ghost use Rattle.rows.specs.Held.{Held};
ghost use Rattle.rows.specs.Chains.{Chained, Headed};

use crate::entry::Entry;

/// A store of at most 4,096 values, one row each: a value costs one, and the space is the rows left.
#[derive(Drop)]
pub struct Rows {
    pub(crate) entries: Vec<Entry>,
    // where each chain begins: one more than the number of its last row, or 0
    pub(crate) heads: Vec<u16>,
    ghost few: { vec_capacity entries ≤ 4096 },
    ghost all: { length heads.items ≡ 4096 },
    ghost held: { Held entries.items } by { Prim.hlevel (props, storable_prop) },
    ghost classed: { Classed entries.items },
    ghost earlier: { Earlier entries.items },
    ghost first: { First entries.items },
    ghost chained: { Chained entries.items },
    ghost headed: { Headed heads.items entries.items },
}
