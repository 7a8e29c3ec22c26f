// Writing encodings: into the unused rest of a tape, out of its used part.
ghost use Rattle.std.specs.Prelude.{◌≡◌, ◌-◌, ◌≤◌, ◌++◌, take, drop, length, Some};
ghost use Rattle.model.specs.Trees.{Trees};
ghost use Rattle.model.specs.Tape.{encode, encode_all};
ghost use Rattle.tape.specs.Headers.{header_size, parts_after};
ghost use Rattle.tape.specs.Values.{IsWhole, build};
ghost use Rattle.tape.specs.Making.{parts_on, HaveRoom, over};

use crate::header::{header_size, write_header};
use crate::walk::encoding;
use store::shape::Shape;

/// Writes the encoding of a value at the front of a tape's unused rest: its header, and behind it the encodings of its parts, which are
/// copied from the used part.
pub(crate) fn encode(rest: &mut [u8], used: &[u8], shape: Shape, parts: &[u32])
    requires few { length used.now ≤ 65535 }
    requires whole { IsWhole used.now }
    requires count { length parts.now ≡ parts_after shape }
    requires header { header_size shape ≤ length rest.old }
    requires room { HaveRoom used.now parts.now (length rest.old - header_size shape) }
    ensures { (ts : Trees) → parts_on used.now parts.now ≡ Some ts → rest.new ≡ over rest.old (encode (build shape ts)) }
{
    write_header(rest, shape);
    copy_parts(&mut rest[header_size(shape)..], used, parts);
}

/// Writes the encoding of a value behind the used bytes of a tape: the part of it from its used length is handed to the encoder.
pub(crate) fn append(bytes: &mut [u8], used: usize, shape: Shape, parts: &[u32])
    requires few { length bytes.old ≤ 65535 }
    requires within { used ≤ length bytes.old }
    requires whole { IsWhole (take used bytes.old) }
    requires count { length parts.now ≡ parts_after shape }
    requires header { header_size shape ≤ length bytes.old - used }
    requires room { HaveRoom (take used bytes.old) parts.now (length bytes.old - used - header_size shape) }
    ensures { (ts : Trees) → parts_on (take used bytes.old) parts.now ≡ Some ts → bytes.new ≡ take used bytes.old ++ over (drop used bytes.old) (encode (build shape ts)) }
{
    let (used, rest) = bytes.split_at_mut(used);
    encode(rest, used, shape, parts);
}

// Copies the parts' encodings to the front of some bytes.
fn copy_parts(out: &mut [u8], used: &[u8], parts: &[u32])
    requires few { length used.now ≤ 65535 }
    requires whole { IsWhole used.now }
    requires room { HaveRoom used.now parts.now (length out.old) }
    ensures { (ts : Trees) → parts_on used.now parts.now ≡ Some ts → out.new ≡ over out.old (encode_all ts) }
{
    let mut at = 0;
    for part in parts {
        let source = encoding(used, *part as usize);
        let end = at + source.len();
        out[at..end].copy_from_slice(source);
        at = end;
    }
}
