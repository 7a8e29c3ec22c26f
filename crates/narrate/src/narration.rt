// From a text that is read to its answer, written.
ghost use Rattle.narrate.specs.Narrations.{Narrates};

use anyhow::anyhow;
use roles::answer::{Answer, DECISIVE};
use std::alloc::Global;
use std::io::{Read, Write};
use terms::limits::Limits;

/// Reads a text and writes its answer: whether there are programs. Nothing is written before the whole answer is there.
pub(crate) fn narrate<R: Read + Drop, W: Write>(
    heap: Global,
    input: R,
    output: &mut W,
) -> anyhow::Result<bool>
    ensures { Narrates (R.remaining input) (W.contents output.old) (W.contents output.new) result }
{
    let mut text = Vec::new(heap);
    input.take(DECISIVE as u64).read_to_end(&mut text)?;
    let Ok(answer) = Answer::to(heap, &text, Limits::standard()) else {
        return Err(anyhow!("out of memory"));
    };
    output.write_all(answer.text.as_bytes())?;
    Ok(answer.refusal.is_none())
}
