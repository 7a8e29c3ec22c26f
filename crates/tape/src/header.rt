// Headers on a tape: reading and writing.
ghost use Rattle.std.specs.Prelude.{◌≡◌, ◌≤◌, drop, length, slice_index};
ghost use Rattle.store.specs.declared.shape.Shape.TheVariants.{Atom};
ghost use Rattle.tape.specs.Making.{over};
ghost use Rattle.tape.specs.Headers.{number, header, header_bytes, header_size, parts_after};

use store::shape::Shape;

// A byte, or 0 past the end.
fn byte_at(bytes: &[u8], place: usize) -> u8
    ensures { result ≡ slice_index bytes.now place }
{
    bytes.get(place).copied().unwrap_or(0)
}

// The number behind the first byte.
fn read_number(bytes: &[u8]) -> u32
    ensures { result ≡ number bytes.now }
{
    byte_at(bytes, 1) as u32 * 16777216
        + byte_at(bytes, 2) as u32 * 65536
        + byte_at(bytes, 3) as u32 * 256
        + byte_at(bytes, 4) as u32
}

// The header that stands at a place.
pub(crate) fn header_at(bytes: &[u8], at: usize) -> Shape
    requires { at ≤ length bytes.now }
    ensures { result ≡ header (drop at bytes.now) }
{
    read_header(&bytes[at..])
}

// The header that bytes begin with.
fn read_header(bytes: &[u8]) -> Shape
    ensures { result ≡ header bytes.now }
{
    match byte_at(bytes, 0) {
        1 => Shape::Atom(read_number(bytes)),
        2 => Shape::Tuple {
            parts: byte_at(bytes, 1),
        },
        3 => Shape::Crypt,
        _ => Shape::Apply {
            function: byte_at(bytes, 1),
            parts: byte_at(bytes, 2),
        },
    }
}

// How many bytes a header has.
pub(crate) fn header_size(shape: Shape) -> usize
    ensures value { result ≡ header_size shape }
    ensures some { 1 ≤ result }
    ensures few { result ≤ 5 }
{
    match shape {
        Shape::Atom(_) => 5,
        Shape::Tuple { .. } => 2,
        Shape::Crypt => 1,
        Shape::Apply { .. } => 3,
    }
}

// How many encodings follow it as parts.
pub(crate) fn parts_after(shape: Shape) -> usize
    ensures value { result ≡ parts_after shape }
    ensures few { result ≤ 255 }
{
    match shape {
        Shape::Crypt => 2,
        _ => shape.count() as usize,
    }
}

// Writes a header at the front of some bytes.
pub(crate) fn write_header(out: &mut [u8], shape: Shape)
    requires { header_size shape ≤ length out.old }
    ensures { out.new ≡ over out.old (header_bytes shape) }
{
    match shape {
        Shape::Atom(number) => write_atom(out, number),
        Shape::Tuple { parts } => {
            out[0] = 2;
            out[1] = parts;
        }
        Shape::Crypt => out[0] = 3,
        Shape::Apply { function, parts } => {
            out[0] = 4;
            out[1] = function;
            out[2] = parts;
        }
    }
}

fn write_atom(out: &mut [u8], number: u32)
    requires { 5 ≤ length out.old }
    ensures { out.new ≡ over out.old (header_bytes (Atom number)) }
{
    out[0] = 1;
    out[1] = (number / 16777216) as u8;
    out[2] = (number / 65536 % 256) as u8;
    out[3] = (number / 256 % 256) as u8;
    out[4] = (number % 256) as u8;
}
