// Why a text was not read.
ghost use Rattle.std.specs.Prelude.{◌≡◌};
ghost use Rattle.text.specs.declared.fault.TextFault.TheVariants as faults;
ghost use Rattle.text.specs.Refusals.{text_refusal};

use base::{Cause, Layer, NoMemory, Refusal};

#[derive(Clone, Copy, PartialEq, Eq, Debug)]
pub enum TextFault {
    // a limit is passed, with the byte at this place
    Limit { at: usize },
    // no text goes on like this: the length of the longest beginning that some text continues
    Broken { at: usize },
    // only a failed allocation gives this
    NoMemory(NoMemory),
}

impl TextFault {
    // Want of memory is no refusal: an `Option`, and no `From`.
    pub fn refusal(&self) -> Option<Refusal>
        ensures { result ≡ text_refusal self.now }
    {
        let (cause, place) = match *self {
            TextFault::Limit { at } => (Cause::Limit, at),
            TextFault::Broken { at } => (Cause::Broken, at),
            TextFault::NoMemory(_) => return None,
        };
        Some(Refusal {
            cause,
            layer: Layer::Text,
            place,
        })
    }
}

impl From<NoMemory> for TextFault {
    ghost from_gives = { λ e r. r ≡ faults.NoMemory e };

    fn from(lack: NoMemory) -> TextFault {
        TextFault::NoMemory(lack)
    }
}
