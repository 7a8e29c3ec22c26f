// What an action may take in: handles that arrive, and numbers for new atoms.
ghost use Rattle.std.specs.Prelude.{◌≡◌, ◌≤◌, length, drop};
ghost use Rattle.run.specs.Supplies.{first_of};

use store::fault::StoreFault;

#[derive(Clone, Copy)]
pub(crate) struct Supply<'a> {
    pub(crate) handles: &'a [u32],
    pub(crate) numbers: &'a [u32],
    // how many of the numbers were taken
    pub(crate) used: usize,
    ghost within: { used ≤ length numbers.now },
}

impl<'a> Supply<'a> {
    // The next handle is taken.
    pub(crate) fn input(&mut self) -> Result<u32, StoreFault>
        ensures answer { result ≡ first_of self.old.handles.now }
        ensures handles { self.new.handles.now ≡ drop 1 self.old.handles.now }
        ensures numbers { self.new.numbers.now ≡ self.old.numbers.now }
        ensures used { self.new.used ≡ self.old.used }
    {
        let Some((first, rest)) = self.handles.split_first() else {
            return Err(StoreFault::Invalid);
        };
        self.handles = rest;
        Ok(*first)
    }

    // The next number is taken.
    pub(crate) fn number(&mut self) -> Result<u32, StoreFault>
        ensures answer { result ≡ first_of (drop self.old.used self.old.numbers.now) }
        ensures taken { drop self.new.used self.new.numbers.now ≡ drop 1 (drop self.old.used self.old.numbers.now) }
        ensures numbers { self.new.numbers.now ≡ self.old.numbers.now }
        ensures handles { self.new.handles.now ≡ self.old.handles.now }
    {
        let Some(number) = self.numbers.get(self.used) else {
            return Err(StoreFault::Invalid);
        };
        self.used += 1;
        Ok(*number)
    }
}
