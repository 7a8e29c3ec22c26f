// Why a store refuses a call.
ghost use Rattle.std.specs.Prelude.{◌≡◌};
ghost use Rattle.store.specs.Refusals.{store_refusal, fault_number};

use base::{Cause, Layer, Refusal};

/// Why a store refuses a call.
#[derive(Clone, Copy, PartialEq, Eq, Debug)]
pub enum StoreFault {
    /// a handle that is not valid
    Invalid,
    /// more than eight parts, or no such part
    NoPart,
    /// another key, or no ciphertext
    Mismatch,
    /// the cost exceeds the space
    Full,
}

impl StoreFault {
    /// The refusal: the cause, the layer of stores, and place 0.
    pub fn refusal(self) -> Refusal
        ensures { result ≡ store_refusal self }
    {
        let cause = match self {
            StoreFault::Invalid => Cause::Invalid,
            StoreFault::NoPart => Cause::WrongCount,
            StoreFault::Mismatch => Cause::Mismatch,
            StoreFault::Full => Cause::Full,
        };
        Refusal {
            cause,
            layer: Layer::Store,
            place: 0,
        }
    }

    /// The number of the refusal's cause.
    pub fn number(self) -> u8
        ensures { result ≡ fault_number self }
    {
        self.refusal().cause.number()
    }
}
