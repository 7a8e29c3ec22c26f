use roles::line_fault::LineFault;
use roles::translate::translate;
use roles::translation_fault::TranslationFault;
use std::alloc::Global;
use std::process::Abort;
use std::test::Fail;
use terms::limits::Limits;

// Four names; terms `k`, `n` and the ciphertext; roles `m` and `h`. `m` fills registers 0 to 3 by give, new, hear and
// open-crypt, and has six actions, with say and same; `h` has fewer of both.
const PAIRING: &str = r#"(spec (declare (type "m" "principal") (type "h" "principal")
(type-shared "k" "number") (type "n" "number") (everybody-knows "k"))
(block (comm 1 "m" "h" "n") (comm 2 "h" "m" (crypt "n" "k" (vanilla))))
(sessions) (assume) (claim))"#;

// Places in it: the name of the fourth declaration, the two roles of line 1, and the message of line 2.
const FOURTH_NAME: usize = 94;

const SENDER: usize = 146;

const RECEIVER: usize = 150;

const CIPHERTEXT: usize = 175;

fn accepted(heap: Global, limits: Limits) -> Result<(), Fail> {
    match translate(heap, PAIRING.as_bytes(), limits) {
        Ok(_) => Ok(()),
        Err(_) => Err(Fail::new("refused")),
    }
}

// A limit is passed, in the layer of this number at this place.
fn too_much(
    rt: &impl Abort,
    heap: Global,
    limits: Limits,
    layer: u8,
    place: usize,
) -> Result<(), Fail> {
    let Err(fault) = translate(heap, PAIRING.as_bytes(), limits) else {
        return Err(Fail::new("accepted"));
    };
    let Some(refusal) = fault.refusal() else {
        return Err(Fail::new("out of memory"));
    };
    assert_eq!(rt; refusal.cause.number(), 1);
    assert_eq!(rt; refusal.layer.number(), layer);
    assert_eq!(rt; refusal.place, place);
    Ok(())
}

#[test]
fn names_and_terms(rt: HostRuntime) -> Result<(), Fail> {
    let standard = Limits::standard();
    accepted(
        rt.alloc(),
        Limits {
            names: 4,
            terms: 3,
            ..standard
        },
    )?;
    too_much(
        &rt,
        rt.alloc(),
        Limits {
            names: 3,
            ..standard
        },
        3,
        FOURTH_NAME,
    )?;
    too_much(
        &rt,
        rt.alloc(),
        Limits {
            terms: 2,
            ..standard
        },
        4,
        CIPHERTEXT,
    )
}

#[test]
fn few_roles(rt: HostRuntime) -> Result<(), Fail> {
    let standard = Limits::standard();
    accepted(
        rt.alloc(),
        Limits {
            roles: 2,
            ..standard
        },
    )?;
    too_much(
        &rt,
        rt.alloc(),
        Limits {
            roles: 1,
            ..standard
        },
        4,
        RECEIVER,
    )
}

// With no register at all the sender fails in its start, at its name.
#[test]
fn registers_and_actions(rt: HostRuntime) -> Result<(), Fail> {
    let standard = Limits::standard();
    accepted(
        rt.alloc(),
        Limits {
            registers: 4,
            actions: 6,
            ..standard
        },
    )?;
    too_much(
        &rt,
        rt.alloc(),
        Limits {
            registers: 3,
            ..standard
        },
        4,
        CIPHERTEXT,
    )?;
    too_much(
        &rt,
        rt.alloc(),
        Limits {
            registers: 0,
            ..standard
        },
        4,
        SENDER,
    )?;
    too_much(
        &rt,
        rt.alloc(),
        Limits {
            actions: 5,
            ..standard
        },
        4,
        CIPHERTEXT,
    )
}

// The message is underivable for the first role that stands in a line, with the first failing term by its number.
fn underivable(
    rt: &impl Abort,
    heap: Global,
    text: &str,
    limits: Limits,
    place: usize,
    failing: u16,
) -> Result<(), Fail> {
    let Err(fault) = translate(heap, text.as_bytes(), limits) else {
        return Err(Fail::new("accepted"));
    };
    match fault {
        TranslationFault::Lines(LineFault::Underivable { at, role, term }) => {
            assert_eq!(rt; at, place);
            assert_eq!(rt; role, 0);
            assert_eq!(rt; term, failing);
            Ok(())
        }
        _ => Err(Fail::new("another fault")),
    }
}

// Terms by number: `a`, `b`, `k`, the ciphertext, `j`, the tuple. `h`, role 0 though name 1, makes `a` and `b`, which takes two registers,
// and then lacks `k`, term 2 (but name 3), before it comes to `j`.
const TWO_LACKING: &str = r#"(spec (declare (type "m" "principal") (type "h" "principal")
(type-shared "j" "number") (type-shared "k" "number") (type "a" "number") (type "b" "number"))
(block (comm 1 "h" "m" (tuple "a" "b" (crypt "a" "k" (vanilla)) "j")))
(sessions) (assume) (claim))"#;

// Underivable also where composing would first run out of registers or actions.
#[test]
fn underivable_first(rt: HostRuntime) -> Result<(), Fail> {
    let standard = Limits::standard();
    underivable(&rt, rt.alloc(), TWO_LACKING, standard, 179, 2)?;
    underivable(
        &rt,
        rt.alloc(),
        TWO_LACKING,
        Limits {
            registers: 1,
            ..standard
        },
        179,
        2,
    )?;
    underivable(
        &rt,
        rt.alloc(),
        TWO_LACKING,
        Limits {
            actions: 1,
            ..standard
        },
        179,
        2,
    )
}

// Terms by number: `k`, the application. `h` lacks both; the right is looked at before the argument.
const NO_RIGHT: &str = r#"(spec (declare (type "m" "principal") (type "h" "principal")
(type-shared "k" "number") (type-shared "f" (secret-function "number" "number")))
(block (comm 1 "h" "m" (apply "f" "k")))
(sessions) (assume) (claim))"#;

#[test]
fn right_first(rt: HostRuntime) -> Result<(), Fail> {
    underivable(&rt, rt.alloc(), NO_RIGHT, Limits::standard(), 166, 1)
}
