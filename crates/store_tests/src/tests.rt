// The script on both stores, each with just the space for what it makes.
use crate::alike::{DIFFERENT, EQUAL, FULL, INVALID, LOCKED, MADE, NO_PART, expect_all, is};
use crate::scripts::{
    atoms, comparisons, compounds, makers_of_nine, parts, refused_makers, refused_questions, shapes,
};
use rows::rows::Rows;
use std::process::Abort;
use std::test::Fail;
use store::call::Answer;
use store::fault::StoreFault;
use store::shape::Shape;
use store::store::Store;
use tape::tape::Tape;

fn shapes_are_told<S: Store>(
    rt: &impl Abort,
    store: &mut S,
    made: &[Answer; 4],
    built: &[Answer; 6],
) {
    let expected = [
        is(Shape::Atom(2)),
        is(Shape::Tuple { parts: 2 }),
        is(Shape::Crypt),
        is(Shape::Apply {
            function: 3,
            parts: 2,
        }),
        is(Shape::Tuple { parts: 0 }),
        is(Shape::Tuple { parts: 8 }),
        Answer::Shape(Err(StoreFault::Invalid)),
    ];
    expect_all(rt, &shapes(store, made, built), &expected);
}

fn script<S: Store>(rt: &impl Abort, store: &mut S) {
    let made = atoms(store);
    expect_all(rt, &made, &[MADE, MADE, MADE, Answer::Space(0)]);
    let built = compounds(store, &made);
    expect_all(rt, &built, &[MADE; 6]);
    assert!(rt; store.space() == 0);
    shapes_are_told(rt, store, &made, &built);
    let found = parts(store, &made, &built);
    expect_all(rt, &found, &[MADE; 4]);
    let compared = comparisons(store, &made, &built, &found);
    let (yes, no) = (EQUAL, DIFFERENT);
    expect_all(rt, &compared, &[yes, yes, yes, yes, yes, no, no, no, no]);
    let (many, wrong) = (NO_PART, INVALID);
    expect_all(rt, &makers_of_nine(store, &made), &[many; 2]);
    let makers = refused_makers(store, &made);
    expect_all(rt, &makers, &[wrong, wrong, wrong, FULL, FULL, FULL]);
    let questions = refused_questions(store, &made, &built);
    expect_all(
        rt,
        &questions,
        &[wrong, wrong, wrong, many, many, many, LOCKED, LOCKED],
    );
    // nothing that was asked or refused altered anything
    shapes_are_told(rt, store, &made, &built);
}

#[test]
fn one_script(rt: HostRuntime) -> Result<(), Fail> {
    let heap = rt.alloc();
    script(&rt, &mut Rows::new(heap, 9)?);
    // three atoms, two pairs, a ciphertext, an application to two atoms, an empty tuple, and one of eight
    script(&rt, &mut Tape::new(heap, 15 + 24 + 11 + 13 + 2 + 42)?);
    Ok(())
}
