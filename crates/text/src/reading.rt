// From a text to its tree.
ghost use Rattle.std.specs.Prelude.{◌≡◌, Result};
ghost use Rattle.text.specs.Law.{Lawful, Decided, Accepts};
ghost use Rattle.text.specs.Machine.{Point, before, between, run};
ghost use Rattle.text.specs.Reading.{full, reading, Answers, cut};
ghost use Rattle.text.specs.Standing.{Ends, Leads};

use crate::builder::Builder;
use crate::fault::TextFault;
use crate::reader::Reader;
use crate::tree::Tree;
use std::alloc::Global;

// how many bytes a text has at most
const MOST_BYTES: usize = 65535;

// The tree of the one term that a text is. A text of more than 65,535 bytes passes a limit with the byte after these, if
// nothing is wrong with it up to there.
pub fn read_text(heap: Global, text: &[u8]) -> Result<Tree, TextFault>
    ensures answers { Answers (reading text.now) result }
    ensures lawful { Lawful text.now result }
    ensures decided { Decided text.now }
    ensures accepts { Accepts text.now result }
{
    if text.len() <= MOST_BYTES {
        return read_all(heap, text);
    }
    Err(fault_of_cut(read_all(heap, &text[..=MOST_BYTES])))
}

// The fault of a text that is too long, from what its first 65,536 bytes gave.
fn fault_of_cut(read: Result<Tree, TextFault>) -> TextFault
    ensures { result ≡ cut read }
{
    match read {
        Ok(_) => TextFault::Limit { at: MOST_BYTES },
        Err(TextFault::Broken { at }) if at > MOST_BYTES => TextFault::Limit { at: MOST_BYTES },
        Err(fault) => fault,
    }
}

// The same, for a text of any length.
fn read_all(heap: Global, text: &[u8]) -> Result<Tree, TextFault>
    ensures { Answers (run full 0 (between before) text.now) result }
{
    let mut reader = Reader::new(text);
    let term = read_term(heap, &mut reader)?;
    let end = reader.after_blanks();
    if end < text.len() {
        return Err(TextFault::Broken { at: end });
    }
    Ok(term)
}

// One term, from its first token to its last.
fn read_term(heap: Global, reader: &mut Reader) -> Result<Tree, TextFault>
    ensures same { reader.new.text ≡ reader.old.text }
    ensures leads { (q : Result Point TextFault) × Leads reader.old.text.now reader.old.at before reader.new.at q × Ends q result }
{
    let mut builder = Builder::new(heap);
    loop {
        let token = reader.next(builder.is_full())?;
        if let Some(term) = builder.take(token)? {
            return Ok(term);
        }
    }
}
