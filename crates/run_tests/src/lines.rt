// Lines that arrive at another time: from an earlier session, or in another order.
use crate::programs::{answerer, hearer, run_of, sender};
use crate::refused::{empty, locked};
use rows::rows::Rows;
use run::RunFault;
use std::alloc::Global;
use std::process::Abort;
use std::test::Fail;
use store::store::Store;
use tape::tape::Tape;

// A sender and an answerer go as far as the answer, with a number for the new atom: the sender's run takes an older answer first.
fn session<S: Store>(
    rt: &impl Abort,
    heap: Global,
    store: &mut S,
    number: u32,
    old: Option<u32>,
) -> Result<u32, Fail> {
    let (m_rows, h_rows) = (sender(), answerer());
    let mut m = run_of(heap, &m_rows)?;
    let mut h = run_of(heap, &h_rows)?;
    let key = store.make_atom(1)?;
    m.begin(store, &[key], &[number])?;
    h.begin(store, &[key], &[])?;
    let new = m.say(store)?;
    h.hear(store, new)?;
    let answer = h.say(store)?;
    if let Some(old) = old {
        assert!(rt; m.hear(store, old) == Err(RunFault::Mismatch { place: 5 }));
        assert!(rt; empty(&m, &[2, 3]));
    }
    m.hear(store, answer)?;
    Ok(answer)
}

fn replayed<S: Store>(rt: &impl Abort, heap: Global, store: &mut S) -> Result<(), Fail> {
    let old = session(rt, heap, store, 7, None)?;
    session(rt, heap, store, 8, Some(old))?;
    // with the same number the old answer would be as good
    let again = session(rt, heap, store, 7, None)?;
    assert!(rt; store.same(again, old) == Ok(true));
    Ok(())
}

#[test]
fn old_line(rt: HostRuntime) -> Result<(), Fail> {
    let heap = rt.alloc();
    replayed(&rt, heap, &mut Rows::new(heap, 9)?)?;
    // in each session two atoms and a ciphertext of both
    replayed(&rt, heap, &mut Tape::new(heap, 3 * 21)?)
}

// Line 2 arrives for line 1, and line 1 for line 2.
fn swapped<S: Store>(rt: &impl Abort, heap: Global, store: &mut S) -> Result<(), Fail> {
    let rows = hearer();
    let mut run = run_of(heap, &rows)?;
    let key = store.make_atom(1)?;
    let two = store.make_atom(2)?;
    let pair = store.make_tuple(&[two, key])?;
    let crypt = store.make_crypt(two, key)?;
    run.begin(store, &[key], &[])?;
    assert!(rt; run.hear(store, crypt) == Err(RunFault::Mismatch { place: 2 }));
    assert!(rt; empty(&run, &[1, 2, 3]));
    run.hear(store, pair)?;
    assert!(rt; run.hear(store, pair) == Err(locked(4)));
    assert!(rt; empty(&run, &[4, 5]));
    assert!(rt; run.register(1) == Some(pair));
    run.hear(store, crypt)?;
    assert!(rt; run.register(4) == Some(crypt));
    Ok(())
}

#[test]
fn swapped_lines(rt: HostRuntime) -> Result<(), Fail> {
    let heap = rt.alloc();
    swapped(&rt, heap, &mut Rows::new(heap, 4)?)?;
    swapped(&rt, heap, &mut Tape::new(heap, 5 + 5 + 12 + 11)?)
}
