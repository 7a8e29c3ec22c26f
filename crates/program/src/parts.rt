// A short list of numbers: the terms or the registers of a compound's parts.
ghost use Rattle.std.specs.Prelude.{◌≡◌, ◌≤◌, [], ◌∷◌, ◌++◌, length, take, slice_index};

use std::marker::Model;

#[derive(Clone, Copy, PartialEq, Eq)]
pub struct Parts {
    count: u8,
    items: [u16; 8],
}

impl Model for Parts {
    ghost use Rattle.std.specs.Prelude.{ℕ, List, length, take};
    ghost use Rattle.std.proofs.Common.{arith, length-take-le};
    ghost use Rattle.program.specs.Padding.{IsPadded, padded, padded-take};

    ghost Value = { List ℕ };

    ghost view = { λ p. take p.count p.items };

    ghost invariant = { λ p. IsPadded p.count p.items };

    ghost inverse = { λ xs. record { count = length xs; items = padded xs } };

    ghost inverse_ok = { λ p h i. record {
      count = length-take-le p.count p.items (omega (arith, h.fits, h.full)) i;
      items = padded-take p.count p.items h i;
    } };
}

impl Parts {
    pub fn new() -> Parts
        ensures { result ≡ [] }
    {
        Parts {
            count: 0,
            items: [0; 8],
        }
    }

    // The first eight of some numbers.
    pub fn from_slice(items: &[u16]) -> Parts
        ensures { result ≡ take 8 items.now }
    {
        let mut parts = Parts::new();
        for item in items {
            parts.push(*item);
        }
        parts
    }

    pub fn as_slice(&self) -> &[u16]
        ensures value { result.now ≡ self.now }
        ensures bound { length result.now ≤ 8 }
    {
        &self.items[..self.count as usize]
    }

    // A number by its place, or 0 past the end: it answers no `Option`, since it is called for parts that are there.
    pub fn at(&self, place: usize) -> u16
        ensures { result ≡ slice_index self.now place }
    {
        self.as_slice().get(place).copied().unwrap_or(0)
    }

    // One number more; a ninth is left out.
    pub fn push(&mut self, item: u16)
        ensures { self.new ≡ take 8 (self.old ++ item ∷ []) }
    {
        if self.count < 8 {
            self.items[self.count as usize] = item;
            self.count += 1;
        }
    }
}
