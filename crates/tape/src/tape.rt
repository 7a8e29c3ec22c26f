// A tape of bytes: the first `used` of them are the encodings of values.
ghost use Rattle.std.specs.Prelude.{◌≤◌, take, vec_len};
ghost use Rattle.std.proofs.Props.{props};
ghost use Rattle.store.specs.StorableFact.{storable_prop};
ghost use Rattle.tape.specs.Values.{IsWhole};
ghost use Rattle.tape.specs.Held.{Held};

/// A store of at most 65,535 bytes: a value costs as many as its encoding has, and the space is the bytes left.
#[derive(Drop)]
pub struct Tape {
    pub(crate) bytes: Vec<u8>,
    pub(crate) used: usize,
    ghost within: { used ≤ vec_len bytes },
    ghost small: { vec_len bytes ≤ 65535 },
    ghost whole: { IsWhole (take used bytes.items) },
    ghost held: { Held (take used bytes.items) } by { Prim.hlevel (props, storable_prop) },
}
