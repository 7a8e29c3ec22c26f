// Honest lines.
use crate::programs::{answerer, opener, run_of, sender};
use rows::rows::Rows;
use std::alloc::Global;
use std::process::Abort;
use std::test::Fail;
use store::shape::Shape;
use store::store::Store;
use tape::tape::Tape;

// Two runs that answer each other, on a store with just the space for it.
fn answered<S: Store>(rt: &impl Abort, heap: Global, store: &mut S) -> Result<(), Fail> {
    let (m_rows, h_rows) = (sender(), answerer());
    let mut m = run_of(heap, &m_rows)?;
    let mut h = run_of(heap, &h_rows)?;
    let key = store.make_atom(1)?;
    // another handle of the same value serves as well
    let same_key = store.make_atom(1)?;
    m.begin(store, &[key], &[7])?;
    h.begin(store, &[same_key], &[])?;
    let new = m.say(store)?;
    assert!(rt; store.shape(new) == Ok(Shape::Atom(7)));
    h.hear(store, new)?;
    let crypt = h.say(store)?;
    assert!(rt; h.register(2) == Some(crypt));
    assert!(rt; store.shape(crypt) == Ok(Shape::Crypt));
    m.hear(store, crypt)?;
    let Some(text) = m.register(3) else {
        return Err(Fail::new("no text"));
    };
    assert!(rt; store.same(text, new) == Ok(true));
    assert!(rt; store.space() == 0);
    Ok(())
}

#[test]
fn honest(rt: HostRuntime) -> Result<(), Fail> {
    let heap = rt.alloc();
    answered(&rt, heap, &mut Rows::new(heap, 4)?)?;
    // three atoms, and a ciphertext of two
    answered(&rt, heap, &mut Tape::new(heap, 3 * 5 + 11)?)
}

// What is heard is taken apart and built again, on a store with just the space for it.
fn rebuilt<S: Store>(rt: &impl Abort, heap: Global, store: &mut S) -> Result<(), Fail> {
    let rows = opener();
    let mut run = run_of(heap, &rows)?;
    let one = store.make_atom(1)?;
    let applied = store.make_apply(2, &[one])?;
    let pair = store.make_tuple(&[applied, one])?;
    run.begin(store, &[], &[])?;
    run.hear(store, pair)?;
    // what the line says last
    let answer = run.say(store)?;
    assert!(rt; answer != pair);
    assert!(rt; store.same(answer, pair) == Ok(true));
    assert!(rt; store.space() == 0);
    Ok(())
}

#[test]
fn opened(rt: HostRuntime) -> Result<(), Fail> {
    let heap = rt.alloc();
    rebuilt(&rt, heap, &mut Rows::new(heap, 5)?)?;
    // an atom, and twice an application to it and the pair of both
    rebuilt(&rt, heap, &mut Tape::new(heap, 5 + 2 * (8 + 15))?)
}
