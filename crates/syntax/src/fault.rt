// Why the shape of a tree was refused.
ghost use Rattle.std.specs.Prelude.{◌≡◌};
ghost use Rattle.syntax.specs.Refusals.{shape_refusal};
ghost use Rattle.syntax.specs.declared.fault.ShapeFault.TheVariants as shape_faults;

use base::{Cause, Layer, NoMemory, Refusal};

// The tree has no shape of a specification. The place is the node's first byte.
#[derive(Clone, Copy, PartialEq, Eq, Debug)]
pub enum ShapeFault {
    // a name is too long, or there are too many lines or parts
    Limit { at: usize },
    // the symbol, the kind of node or the count of parts does not fit
    Misfit { at: usize },
    // a form of the language that is not translated
    NotCarried { at: usize },
    // a quoted text that is no name
    NoName { at: usize },
    // only a failed allocation gives this
    NoMemory(NoMemory),
}

impl ShapeFault {
    // Want of memory is no refusal: an `Option`, and no `From`.
    pub fn refusal(&self) -> Option<Refusal>
        ensures { result ≡ shape_refusal self.now }
    {
        let (cause, place) = match *self {
            ShapeFault::Limit { at } => (Cause::Limit, at),
            ShapeFault::Misfit { at } => (Cause::Misfit, at),
            ShapeFault::NotCarried { at } => (Cause::NotCarried, at),
            ShapeFault::NoName { at } => (Cause::NoName, at),
            ShapeFault::NoMemory(_) => return None,
        };
        Some(Refusal {
            cause,
            layer: Layer::Shape,
            place,
        })
    }
}

impl From<NoMemory> for ShapeFault {
    ghost from_gives = { λ e r. r ≡ shape_faults.NoMemory e };

    fn from(lack: NoMemory) -> ShapeFault {
        ShapeFault::NoMemory(lack)
    }
}
