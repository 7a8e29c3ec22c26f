// Begins that are refused: 13 for wrong counts, and 12 at a value that is given.
use crate::programs::{run_of, sender, starter};
use crate::refused::{BEYOND, GREATEST, empty, invalid, out_of_turn};
use rows::rows::Rows;
use run::RunFault;
use std::alloc::Global;
use std::process::Abort;
use std::test::Fail;
use store::shape::Shape;
use store::store::Store;
use tape::tape::Tape;

fn miscounted<S: Store>(rt: &impl Abort, heap: Global, store: &mut S) -> Result<(), Fail> {
    let rows = sender();
    let mut m = run_of(heap, &rows)?;
    let key = store.make_atom(1)?;
    let space = store.space();
    let wrong = RunFault::Counts { place: 0 };
    assert!(rt; wrong.number() == 13);
    assert!(rt; m.begin(store, &[], &[7]) == Err(wrong));
    assert!(rt; m.begin(store, &[key, key], &[7]) == Err(wrong));
    assert!(rt; m.begin(store, &[key], &[]) == Err(wrong));
    assert!(rt; m.begin(store, &[key], &[7, 8]) == Err(wrong));
    // counts come before handles
    assert!(rt; m.begin(store, &[BEYOND], &[]) == Err(wrong));
    for handle in [BEYOND, GREATEST] {
        assert!(rt; m.begin(store, &[handle], &[8]) == Err(invalid(0)));
    }
    assert!(rt; invalid(0).number() == 12);
    // a refused begin leaves nothing: no number, no register, and it is still to begin
    assert!(rt; m.say(store) == Err(out_of_turn(0)));
    assert!(rt; empty(&m, &[0, 1, 2, 3]));
    assert!(rt; store.space() == space);
    m.begin(store, &[key], &[7])?;
    assert!(rt; m.register(0) == Some(key));
    let new = m.say(store)?;
    assert!(rt; store.shape(new) == Ok(Shape::Atom(7)));
    Ok(())
}

#[test]
fn begins(rt: HostRuntime) -> Result<(), Fail> {
    let heap = rt.alloc();
    miscounted(&rt, heap, &mut Rows::new(heap, 2)?)?;
    miscounted(&rt, heap, &mut Tape::new(heap, 10)?)
}

// The handle that the store will answer for the ciphertext, and what that costs. Handles are looked at before anything is built, so it
// is not valid for the begin; it is taken in where `give` stands, so what was built before stays.
fn foreseen<S: Store>(
    rt: &impl Abort,
    heap: Global,
    store: &mut S,
    next: u32,
    cost: usize,
) -> Result<(), Fail> {
    let rows = starter();
    let mut run = run_of(heap, &rows)?;
    let one = store.make_atom(1)?;
    let space = store.space();
    assert!(rt; run.begin(store, &[BEYOND, one], &[]) == Err(invalid(0)));
    assert!(rt; store.space() == space);
    assert!(rt; run.begin(store, &[one, next], &[]) == Err(invalid(2)));
    assert!(rt; space.saturating_sub(store.space()) == cost);
    assert!(rt; store.shape(next) == Ok(Shape::Crypt));
    assert!(rt; empty(&run, &[0, 1, 2]));
    assert!(rt; run.say(store) == Err(out_of_turn(0)));
    // now it is
    run.begin(store, &[one, next], &[])?;
    assert!(rt; run.say(store) == Ok(next));
    Ok(())
}

#[test]
fn handles_are_looked_at_first(rt: HostRuntime) -> Result<(), Fail> {
    let heap = rt.alloc();
    foreseen(&rt, heap, &mut Rows::new(heap, 3)?, 1, 1)?;
    foreseen(&rt, heap, &mut Tape::new(heap, 27)?, 5, 11)
}
