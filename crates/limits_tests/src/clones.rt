// Copies of the rows of a specification, and clones of its terms, told by the places in the text.
use std::alloc::{AllocError, Global};
use std::process::Abort;
use std::test::Fail;
use syntax::source::Source;
use syntax::spec::{Declaration, Label, Name, Spec, Term};
use terms::declarations::Declarations;
use terms::fault::DeclarationFault;
use terms::limits::Limits;
use text::read_text;

// Each kind of declaration and of term. Names are at 28, 32, 55, 76, 85, 100, 111, 115, 148, and in the line at 169, 173, 184, 195, 199;
// the ciphertext is at 104, the tuple at 177, the application at 188.
const EACH_KIND: &str = r#"(spec (declare (type-shared "n" "number")
(type-shared "f" (secret-function "number" "key"))
(knows "h" (crypt "n" "k" (vanilla))) (everybody-knows "k"))
(block (comm 7 "m" "h" (tuple "n" (apply "f" "k"))))
(sessions) (assume) (claim))"#;

fn spec(heap: Global) -> Result<Spec, Fail> {
    let text = EACH_KIND.as_bytes();
    let root = read_text(heap, text)?;
    match (Source { heap, text }).spec(&root) {
        Ok(spec) => Ok(spec),
        Err(_) => Err(Fail::new("refused")),
    }
}

// A term with its place, before those in it.
#[derive(Clone, Copy, PartialEq, Eq, Debug)]
enum Seen {
    Name(usize),
    Tuple {
        at: usize,
        parts: usize,
    },
    Crypt(usize),
    Apply {
        at: usize,
        function: usize,
        arguments: usize,
    },
}

fn see(term: &Term, seen: &mut Vec<Seen>) -> Result<(), AllocError> {
    match term {
        Term::Name(name) => seen.push(Seen::Name(name.at))?,
        Term::Tuple { at, parts } => {
            seen.push(Seen::Tuple {
                at: *at,
                parts: parts.len(),
            })?;
            for part in parts {
                see(part, seen)?;
            }
        }
        Term::Crypt { at, text, key } => {
            seen.push(Seen::Crypt(*at))?;
            see(text, seen)?;
            see(key, seen)?;
        }
        Term::Apply {
            at,
            function,
            arguments,
        } => {
            seen.push(Seen::Apply {
                at: *at,
                function: function.at,
                arguments: arguments.len(),
            })?;
            for argument in arguments {
                see(argument, seen)?;
            }
        }
    }
    Ok(())
}

// The term and those in it are these.
fn shows(rt: &impl Abort, heap: Global, term: &Term, wanted: &[Seen]) -> Result<(), Fail> {
    let mut seen = Vec::new(heap);
    see(term, &mut seen)?;
    assert!(rt; seen.as_slice() == wanted);
    Ok(())
}

// Rows are copied; the terms that they name by number are the specification's.
#[test]
fn declarations(rt: HostRuntime) -> Result<(), Fail> {
    let heap = rt.alloc();
    let spec = spec(heap)?;
    let [value, function, ..] = spec.declarations.as_slice() else {
        return Err(Fail::new("no declarations"));
    };
    let (value, function) = (*value, *function);
    let Declaration::Value { name, kind, shared } = value else {
        return Err(Fail::new("no value"));
    };
    assert_eq!(rt; (name.at, kind.at), (28, 32));
    assert!(rt; shared);
    let Declaration::Function {
        name,
        class,
        result,
        first,
        end,
    } = function
    else {
        return Err(Fail::new("no function"));
    };
    assert_eq!(rt; (name.at, result.at), (55, 76));
    assert!(rt; class.secret && !class.one_way);
    let [parameter] = spec.parameters(first, end) else {
        return Err(Fail::new("no single parameter"));
    };
    assert_eq!(rt; parameter.at, 85);
    assert!(rt; spec.parameters(end, first).is_empty());
    assert!(rt; spec.parameters(2, 9).is_empty());
    Ok(())
}

#[test]
fn knowledge(rt: HostRuntime) -> Result<(), Fail> {
    let heap = rt.alloc();
    let spec = spec(heap)?;
    let [_, _, knows, everybody] = spec.declarations.as_slice() else {
        return Err(Fail::new("no four declarations"));
    };
    let (knows, everybody) = (*knows, *everybody);
    let nothing = Term::nothing();
    let Declaration::Knows { knower, term } = knows else {
        return Err(Fail::new("no knowledge"));
    };
    assert_eq!(rt; knower.at, 100);
    shows(
        &rt,
        heap,
        spec.term_or(term, &nothing),
        &[Seen::Crypt(104), Seen::Name(111), Seen::Name(115)],
    )?;
    let Declaration::EverybodyKnows { term } = everybody else {
        return Err(Fail::new("no common knowledge"));
    };
    shows(&rt, heap, spec.term_or(term, &nothing), &[Seen::Name(148)])
}

// The message of a line, also as a clone that outlives its specification.
#[test]
fn lines(rt: HostRuntime) -> Result<(), Fail> {
    let heap = rt.alloc();
    let spec = spec(heap)?;
    let nothing = Term::nothing();
    let [line] = spec.lines.as_slice() else {
        return Err(Fail::new("no single line"));
    };
    let line = *line;
    assert!(rt; matches!(line.label, Label::Number { at: 167, value: 7 }));
    assert_eq!(rt; (line.sender.at, line.receiver.at), (169, 173));
    let message = spec.term_or(line.message, &nothing).clone()?;
    drop(spec);
    shows(
        &rt,
        heap,
        &message,
        &[
            Seen::Tuple { at: 177, parts: 2 },
            Seen::Name(184),
            Seen::Apply {
                at: 188,
                function: 195,
                arguments: 1,
            },
            Seen::Name(199),
        ],
    )
}

// A number that is no term's stands for a name without letters, which nobody declared.
#[test]
fn no_term(rt: HostRuntime) -> Result<(), Fail> {
    let heap = rt.alloc();
    let text = b"(spec (declare (type \"n\" \"number\")) (block) (sessions) (assume) (claim))";
    let root = read_text(heap, text)?;
    let Ok(mut spec) = (Source { heap, text }).spec(&root) else {
        return Err(Fail::new("refused"));
    };
    spec.declarations
        .push(Declaration::EverybodyKnows { term: 0 })?;
    match Declarations::read(heap, text, &spec, Limits::standard()) {
        Err(DeclarationFault::Undeclared { at: 0 }) => Ok(()),
        _ => Err(Fail::new("not refused at the place 0")),
    }
}
