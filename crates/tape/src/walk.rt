// Going over a tape from encoding to encoding.
ghost use Rattle.std.specs.Prelude.{◌≡◌, ◌+◌, ◌≤◌, length, Some};
ghost use Rattle.model.specs.Trees.{Tree, eq_tree};
ghost use Rattle.model.specs.Tape.{encode};
ghost use Rattle.store.specs.Questions.{value_at};
ghost use Rattle.tape.specs.Values.{starts, Stands, HasValue, Begins, parts_of};

use crate::header::{header_at, header_size, parts_after};

// Whether an encoding begins at a place.
pub(crate) fn starts(bytes: &[u8], handle: usize) -> bool
    ensures { result ≡ starts 0 bytes.now handle }
{
    let mut at = 0;
    while at < handle && at < bytes.len() {
        at += header_size(header_at(bytes, at));
    }
    at == handle && at < bytes.len()
}

// The end of an encoding: a header is passed for each encoding that is still to be read.
pub(crate) fn end_of(bytes: &[u8], start: usize) -> usize
    requires { length bytes.now ≤ 65535 }
    ensures { (v : Tree) → Stands bytes.now start v → result ≡ start + length (encode v) }
{
    let mut at = start;
    let mut left: usize = 1;
    while left > 0 && at < bytes.len() {
        let shape = header_at(bytes, at);
        at += header_size(shape);
        left = left - 1 + parts_after(shape);
    }
    at
}

// The bytes of an encoding.
pub(crate) fn encoding(bytes: &[u8], start: usize) -> &[u8]
    requires few { length bytes.now ≤ 65535 }
    requires stands { HasValue bytes.now start }
    ensures { (v : Tree) → Stands bytes.now start v → result.now ≡ encode v }
{
    &bytes[start..end_of(bytes, start)]
}

// Whether two values are equal: their encodings are.
pub(crate) fn equal(bytes: &[u8], left: usize, right: usize) -> bool
    requires few { length bytes.now ≤ 65535 }
    requires left { HasValue bytes.now left }
    requires right { HasValue bytes.now right }
    ensures { (v w : Tree) → Stands bytes.now left v → Stands bytes.now right w → result ≡ eq_tree v w }
{
    encoding(bytes, left) == encoding(bytes, right)
}

// Where a part begins, counted from 0: behind the header and the parts before it.
pub(crate) fn part_at(bytes: &[u8], start: usize, index: usize) -> usize
    requires few { length bytes.now ≤ 65535 }
    requires within { start ≤ length bytes.now }
    ensures { (v p : Tree) → Begins bytes.now start v → value_at (parts_of v) index ≡ Some p → Begins bytes.now result p }
{
    let mut at = start + header_size(header_at(bytes, start));
    for _ in 0..index {
        at = end_of(bytes, at);
    }
    at
}
