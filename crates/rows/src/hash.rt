// In which chain a row is looked for.
ghost use Rattle.std.specs.Prelude.{◌≡◌, ◌<◌};
ghost use Rattle.rows.specs.Hashes.{mixed, kind_code, hash_of, chain_of};

use crate::entry::Row;
use program::kind::Kind;

fn mix(hash: u32, number: u32) -> u32
    ensures { result ≡ mixed hash number }
{
    hash.wrapping_add(number).wrapping_mul(2654435761)
}

fn code(kind: Kind) -> u32
    ensures { result ≡ kind_code kind }
{
    match kind {
        Kind::Tuple => 1,
        Kind::Crypt => 2,
        Kind::Apply(function) => function as u32 + 3,
    }
}

fn hash(row: &Row) -> u32
    ensures { result ≡ hash_of row.now }
{
    match *row {
        Row::Atom(number) => mix(0, number),
        Row::Compound { kind, parts } => parts
            .as_slice()
            .iter()
            .fold(code(kind), |hash, part| mix(hash, *part as u32)),
    }
}

#[tactic(auto, unfolding(crate::specs::Hashes::chain_of))]
pub(crate) fn chain(row: &Row) -> usize
    ensures value { result ≡ chain_of row.now }
    ensures bound { result < 4096 }
{
    hash(row) as usize / 1048576
}
