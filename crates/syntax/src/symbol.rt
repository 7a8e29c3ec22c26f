// The symbols of the language.
ghost use Rattle.std.specs.Prelude.{◌≡◌};
ghost use Rattle.syntax.specs.Symbols.{symbol, found, entries, one_of, spellings};

// What a function type says of its functions: who may apply them, and whether an application hides its arguments.
#[derive(Clone, Copy, PartialEq, Eq)]
pub struct FunctionClass {
    pub secret: bool,
    pub one_way: bool,
}

// The lists after the block, which stay empty.
#[derive(Clone, Copy, PartialEq, Eq)]
pub enum Section {
    Sessions,
    Assume,
    Claim,
}

#[derive(Clone, Copy, PartialEq, Eq)]
pub enum Symbol {
    Spec,
    Declare,
    Type,
    TypeShared,
    FunctionType(FunctionClass),
    Knows,
    EverybodyKnows,
    Block,
    Comm,
    Tuple,
    Crypt,
    Vanilla,
    Apply,
    Section(Section),
    // a form of the language that is not translated
    NotCarried,
    Unknown,
}

pub fn symbol_of(name: &[u8]) -> Symbol
    ensures { result ≡ symbol name.now }
{
    if let Some(symbol) = find(name, &CARRIED) {
        return symbol;
    }
    if is_one_of(name, &NOT_CARRIED) {
        return Symbol::NotCarried;
    }
    Symbol::Unknown
}

const CARRIED: [(&[u8], Symbol); 19] = [
    (b"spec", Symbol::Spec),
    (b"declare", Symbol::Declare),
    (b"type", Symbol::Type),
    (b"type-shared", Symbol::TypeShared),
    (b"knows", Symbol::Knows),
    (b"everybody-knows", Symbol::EverybodyKnows),
    (b"block", Symbol::Block),
    (b"comm", Symbol::Comm),
    (b"tuple", Symbol::Tuple),
    (b"crypt", Symbol::Crypt),
    (b"vanilla", Symbol::Vanilla),
    (b"apply", Symbol::Apply),
    (b"sessions", Symbol::Section(Section::Sessions)),
    (b"assume", Symbol::Section(Section::Assume)),
    (b"claim", Symbol::Section(Section::Claim)),
    (
        b"function",
        Symbol::FunctionType(FunctionClass {
            secret: false,
            one_way: false,
        }),
    ),
    (
        b"secret-function",
        Symbol::FunctionType(FunctionClass {
            secret: true,
            one_way: false,
        }),
    ),
    (
        b"one-way-function",
        Symbol::FunctionType(FunctionClass {
            secret: false,
            one_way: true,
        }),
    ),
    (
        b"secret-one-way-function",
        Symbol::FunctionType(FunctionClass {
            secret: true,
            one_way: true,
        }),
    ),
];

const NOT_CARRIED: [&[u8]; 38] = [
    b"keypair",
    b"alias",
    b"local-alias",
    b"basetype",
    b"axiom",
    b"equals",
    b"assign",
    b"switch",
    b"case",
    b"sign",
    b"percent",
    b"locate",
    b"session",
    b"session-repeat",
    b"private",
    b"principals-only",
    b"principals-except",
    b"bind",
    b"prop",
    b"at",
    b"owns",
    b"secret",
    b"and",
    b"or",
    b"implies",
    b"not",
    b"E",
    b"A",
    b"F",
    b"G",
    b"P",
    b"Q",
    b"N",
    b"U",
    b"W",
    b"S",
    b"B",
    b"line",
];

// The symbol of the first entry that has this name.
fn find(name: &[u8], table: &[(&[u8], Symbol)]) -> Option<Symbol>
    ensures { result ≡ found name.now (entries table.now) }
{
    let (_, symbol) = table.iter().find(|(spelled, _)| *spelled == name)?;
    Some(*symbol)
}

fn is_one_of(name: &[u8], names: &[&[u8]]) -> bool
    ensures { result ≡ one_of name.now (spellings names.now) }
{
    names.contains(&name)
}
