// What is answered to a text, in print.
ghost use Rattle.std.specs.Prelude.{◌≡◌, ℕ, List, take, IfOk};
ghost use Rattle.roles.specs.Answered.{Answered, Decided, Refuses};

use crate::translate::translate;
use base::Refusal;
use std::alloc::{AllocError, Global};
use std::fmt::Write;
use terms::limits::Limits;

/// The first so many bytes of a text decide its answer.
pub const DECISIVE: usize = 65536;

/// The answer to a text, in print.
#[derive(Drop)]
pub struct Answer {
    /// the programs of all roles, or a line that says why there are none, and where
    pub text: String,
    /// the refusal, if there are no programs
    pub refusal: Option<Refusal>,
}

impl Answer {
    /// Translates a text within limits. The first 65,536 bytes of a text decide its answer. There is an error only for want of memory.
    pub fn to(heap: Global, text: &[u8], limits: Limits) -> Result<Answer, AllocError>
        ensures answers { IfOk result (Answered limits text.now) }
        ensures decided { (whole : List ℕ) → take 65536 whole ≡ text.now → Decided limits whole text.now }
    {
        match translate(heap, text, limits) {
            Ok(translation) => match translation.listing(heap, text) {
                Ok(listing) => Ok(Answer {
                    text: listing,
                    refusal: None,
                }),
                Err(_) => Err(AllocError),
            },
            Err(fault) => match fault.refusal() {
                Some(refusal) => refused(heap, refusal),
                None => Err(AllocError),
            },
        }
    }
}

// The answer of a refusal: its line.
fn refused(heap: Global, refusal: Refusal) -> Result<Answer, AllocError>
    ensures { IfOk result (Refuses refusal) }
{
    let mut line = String::new(heap);
    writeln!(line, "{refusal}")?;
    Ok(Answer {
        text: line,
        refusal: Some(refusal),
    })
}
