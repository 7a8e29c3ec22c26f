// Why a text was not translated.
ghost use Rattle.std.specs.Prelude.{◌≡◌};
ghost use Rattle.roles.specs.Refusals.{translation_refusal};
ghost use Rattle.roles.specs.declared.translation_fault.TranslationFault.TheVariants as translation_faults;

use crate::line_fault::LineFault;
use base::Refusal;
use syntax::fault::ShapeFault;
use terms::fault::DeclarationFault;
use text::fault::TextFault;

// A text is refused by the text, the tree's shape, the declarations or the lines.
#[derive(Clone, Copy, PartialEq, Eq, Debug)]
pub enum TranslationFault {
    Text(TextFault),
    Shape(ShapeFault),
    Declarations(DeclarationFault),
    Lines(LineFault),
}

impl TranslationFault {
    // Want of memory is no refusal.
    pub fn refusal(&self) -> Option<Refusal>
        ensures { result ≡ translation_refusal self.now }
    {
        match self {
            TranslationFault::Text(fault) => fault.refusal(),
            TranslationFault::Shape(fault) => fault.refusal(),
            TranslationFault::Declarations(fault) => fault.refusal(),
            TranslationFault::Lines(fault) => fault.refusal(),
        }
    }
}

impl From<TextFault> for TranslationFault {
    ghost from_gives = { λ e r. r ≡ translation_faults.Text e };

    fn from(fault: TextFault) -> TranslationFault {
        TranslationFault::Text(fault)
    }
}

impl From<ShapeFault> for TranslationFault {
    ghost from_gives = { λ e r. r ≡ translation_faults.Shape e };

    fn from(fault: ShapeFault) -> TranslationFault {
        TranslationFault::Shape(fault)
    }
}

impl From<DeclarationFault> for TranslationFault {
    ghost from_gives = { λ e r. r ≡ translation_faults.Declarations e };

    fn from(fault: DeclarationFault) -> TranslationFault {
        TranslationFault::Declarations(fault)
    }
}

impl From<LineFault> for TranslationFault {
    ghost from_gives = { λ e r. r ≡ translation_faults.Lines e };

    fn from(fault: LineFault) -> TranslationFault {
        TranslationFault::Lines(fault)
    }
}
