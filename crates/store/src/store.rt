// What every store of values offers, by what its handles mean.
ghost use Rattle.std.specs.Prelude.{◌≡◌, ℕ, ◌<◌, ◌≤◌, [], ◌∷◌, Ok, Some};
ghost use Rattle.model.specs.Trees.{tupled, crypted, applied, Tree, leaf};
ghost use Rattle.model.specs.Storable.{Storable};
ghost use Rattle.store.specs.Semantics.{Semantics};
ghost use Rattle.store.specs.Makers.{wanted, Makes};
ghost use Rattle.store.specs.Questions.{shape_answer, part_value, unlocked_value, same_answer, Answers};

use crate::fault::StoreFault;
use crate::shape::Shape;

/// A store of values, which are named by handles. A handle names a value once it is valid, and then always the same one.
///
/// A maker answers the handle of a value that it has made: a fresh one, which was not valid before. It is refused by `NoPart` for more
/// than eight parts, then by `Invalid` for a handle that is not valid, then by `Full` exactly if the value costs more than the space. A
/// refused maker, and every question, leaves the store as it was.
pub trait Store {
    // what handles mean, how much space is free, and what values cost
    ghost semantics: { Semantics Self };

    /// Makes the atom of a number.
    fn make_atom(&mut self, number: u32) -> Result<u32, StoreFault>
        ensures { Makes semantics self.old self.new (Ok (leaf number)) result };

    /// Makes the tuple of the values of some handles.
    fn make_tuple(&mut self, parts: &[u32]) -> Result<u32, StoreFault>
        ensures { Makes semantics self.old self.new (wanted (semantics.means self.old) tupled parts.now) result };

    /// Makes the ciphertext of a text under a key.
    fn make_crypt(&mut self, text: u32, key: u32) -> Result<u32, StoreFault>
        ensures { Makes semantics self.old self.new (wanted (semantics.means self.old) crypted (text ∷ key ∷ [])) result };

    /// Makes the application of a function, by its number, to the values of some handles.
    fn make_apply(&mut self, function: u8, parts: &[u32]) -> Result<u32, StoreFault>
        ensures { Makes semantics self.old self.new (wanted (semantics.means self.old) (applied function) parts.now) result };

    /// What a value is, without its parts; or `Invalid`.
    fn shape(&self, handle: u32) -> Result<Shape, StoreFault>
        ensures { result ≡ shape_answer (semantics.means self.now handle) };

    /// A handle of a part of a tuple or an application, counted from 0; or `Invalid`, then `NoPart`.
    fn part(&self, handle: u32, index: usize) -> Result<u32, StoreFault>
        ensures { Answers (semantics.means self.now) (part_value (semantics.means self.now handle) index) result };

    /// A handle of a ciphertext's text, if its key is equal to the value of another handle; or `Invalid`, then `Mismatch`.
    fn unlock(&self, handle: u32, key: u32) -> Result<u32, StoreFault>
        ensures { Answers (semantics.means self.now) (unlocked_value (semantics.means self.now handle) (semantics.means self.now key)) result };

    /// Whether the values of two handles are equal; or `Invalid`.
    fn same(&self, left: u32, right: u32) -> Result<bool, StoreFault>
        ensures { result ≡ same_answer (semantics.means self.now left) (semantics.means self.now right) };

    /// How much can still be spent on values.
    fn space(&self) -> usize
        ensures { result ≡ semantics.space self.now };

    // laws: nothing is free, handles are small, and each value is one that can be held
    ghost each_costs: { (s : Self) → (v : Tree) → 1 ≤ semantics.cost s v };

    ghost each_fits: { (s : Self) → (h : ℕ) → (v : Tree) → semantics.means s h ≡ Some v → h < 4294967295 };

    ghost each_holds: { (s : Self) → (h : ℕ) → (v : Tree) → semantics.means s h ≡ Some v → Storable v };
}
