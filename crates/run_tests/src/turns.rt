// Calls out of turn: each is refused with 11, and loses nothing.
use crate::programs::{answerer, run_of, sender};
use crate::refused::{BEYOND, empty, out_of_turn};
use rows::rows::Rows;
use std::alloc::Global;
use std::process::Abort;
use std::test::Fail;
use store::shape::Shape;
use store::store::Store;
use tape::tape::Tape;

fn early<S: Store>(rt: &impl Abort, heap: Global, store: &mut S) -> Result<(), Fail> {
    let rows = sender();
    let mut m = run_of(heap, &rows)?;
    let key = store.make_atom(1)?;
    let space = store.space();
    // before the begin
    assert!(rt; m.say(store) == Err(out_of_turn(0)));
    assert!(rt; m.hear(store, key) == Err(out_of_turn(0)));
    assert!(rt; empty(&m, &[0, 1, 2, 3]));
    m.begin(store, &[key], &[7])?;
    // begin twice; 11 comes before 13, and before 12
    assert!(rt; m.begin(store, &[key], &[8]) == Err(out_of_turn(1)));
    assert!(rt; m.begin(store, &[], &[]) == Err(out_of_turn(1)));
    assert!(rt; m.begin(store, &[BEYOND], &[8]) == Err(out_of_turn(1)));
    // hear for say
    assert!(rt; m.hear(store, key) == Err(out_of_turn(1)));
    assert!(rt; m.hear(store, BEYOND) == Err(out_of_turn(1)));
    assert!(rt; store.space() == space);
    // the number is that of the begin that was taken
    let new = m.say(store)?;
    assert!(rt; store.shape(new) == Ok(Shape::Atom(7)));
    // say for hear
    assert!(rt; m.say(store) == Err(out_of_turn(3)));
    assert!(rt; m.register(1) == Some(new));
    Ok(())
}

#[test]
fn before_the_end(rt: HostRuntime) -> Result<(), Fail> {
    let heap = rt.alloc();
    early(&rt, heap, &mut Rows::new(heap, 4)?)?;
    early(&rt, heap, &mut Tape::new(heap, 20)?)?;
    let fault = out_of_turn(3);
    assert!(rt; fault.number() == 11);
    assert!(rt; fault.place() == 3);
    Ok(())
}

// After the end it is nobody's turn.
fn late<S: Store>(rt: &impl Abort, heap: Global, store: &mut S) -> Result<(), Fail> {
    let (m_rows, h_rows) = (sender(), answerer());
    let mut m = run_of(heap, &m_rows)?;
    let mut h = run_of(heap, &h_rows)?;
    let key = store.make_atom(1)?;
    m.begin(store, &[key], &[7])?;
    h.begin(store, &[key], &[])?;
    let new = m.say(store)?;
    h.hear(store, new)?;
    let crypt = h.say(store)?;
    m.hear(store, crypt)?;
    let space = store.space();
    assert!(rt; m.begin(store, &[key], &[8]) == Err(out_of_turn(6)));
    assert!(rt; m.say(store) == Err(out_of_turn(6)));
    assert!(rt; m.hear(store, crypt) == Err(out_of_turn(6)));
    assert!(rt; h.begin(store, &[key], &[]) == Err(out_of_turn(4)));
    assert!(rt; h.say(store) == Err(out_of_turn(4)));
    assert!(rt; h.hear(store, new) == Err(out_of_turn(4)));
    assert!(rt; m.register(1) == Some(new));
    assert!(rt; h.register(2) == Some(crypt));
    assert!(rt; store.space() == space);
    Ok(())
}

#[test]
fn after_the_end(rt: HostRuntime) -> Result<(), Fail> {
    let heap = rt.alloc();
    late(&rt, heap, &mut Rows::new(heap, 4)?)?;
    late(&rt, heap, &mut Tape::new(heap, 40)?)
}
