// From a text to the programs of its roles: the text, the tree's shape, the declarations and the lines, each ended before the next.
ghost use Rattle.std.specs.Prelude.{IfOk};
ghost use Rattle.roles.specs.Holding.{AllHeld};
ghost use Rattle.roles.specs.Translating.{translation};
ghost use Rattle.roles.specs.Staging.{Translates};
ghost use Rattle.roles.specs.TranslationLaw.{TranslationLaw};

use crate::line_fault::LineFault;
use crate::translation::{Input, Translation};
use crate::translation_fault::TranslationFault;
use std::alloc::Global;
use syntax::source::Source;
use terms::declarations::Declarations;
use terms::limits::Limits;
use text::read_text;

pub fn translate(heap: Global, text: &[u8], limits: Limits) -> Result<Translation, TranslationFault>
    ensures answers { Translates (translation limits text.now) result }
    ensures law { TranslationLaw limits text.now result }
    ensures held { IfOk result AllHeld }
{
    let tree = read_text(heap, text)?;
    let spec = Source { heap, text }.spec(&tree)?;
    let declarations = Declarations::read(heap, text, &spec, limits)?;
    let mut translation = Translation {
        declarations,
        roles: Vec::new(heap),
    };
    let input = Input {
        heap,
        text,
        spec: &spec,
        limits,
    };
    translation.lines(input, &spec.lines)?;
    Ok(translation)
}
