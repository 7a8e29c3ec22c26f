// What is declared of functions, of a text and of a caller's own row.
use roles::translate::translate;
use std::process::Abort;
use std::test::Fail;
use terms::declarations::{Declarations, Function, ValueType};
use terms::limits::Limits;

// `f` has a number and a principal for parameters, `g` none, `h` a principal.
const THREE: &[u8] = br#"(spec (declare (type "m" "principal") (type "n" "number")
(type-shared "f" (one-way-function "number" "number" "principal"))
(type-shared "g" (secret-function "number"))
(type-shared "h" (secret-one-way-function "principal" "principal")))
(block) (sessions) (assume) (claim))"#;

// The types of a row's parameters are these.
fn shows(rt: &impl Abort, declarations: &Declarations, row: Function, wanted: &[ValueType]) {
    assert!(rt; declarations.parameters(row) == wanted);
}

#[test]
fn parameters(rt: HostRuntime) -> Result<(), Fail> {
    let Ok(translation) = translate(rt.alloc(), THREE, Limits::standard()) else {
        return Err(Fail::new("refused"));
    };
    let declarations = &translation.declarations;
    let [f, g, h] = declarations.functions() else {
        return Err(Fail::new("no three functions"));
    };
    assert_eq!(rt; (f.arity(), g.arity(), h.arity()), (2, 0, 1));
    let (number, party) = (ValueType::Number, ValueType::Principal);
    shows(&rt, declarations, *f, &[number, party]);
    shows(&rt, declarations, *g, &[]);
    shows(&rt, declarations, *h, &[party]);
    Ok(())
}
