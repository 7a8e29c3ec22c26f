// A pair of an application and its part is due, and something else arrives: 14 for kind, count, function, and parts that differ.
use crate::programs::{opener, run_of};
use crate::refused::{BEYOND, empty, invalid};
use rows::rows::Rows;
use run::RunFault;
use std::alloc::Global;
use std::process::Abort;
use std::test::Fail;
use store::store::Store;
use tape::tape::Tape;

fn no_pairs<S: Store>(rt: &impl Abort, heap: Global, store: &mut S) -> Result<(), Fail> {
    let rows = opener();
    let mut run = run_of(heap, &rows)?;
    let one = store.make_atom(1)?;
    let applied = store.make_apply(2, &[one])?;
    let crypt = store.make_crypt(applied, one)?;
    let applied_two = store.make_apply(2, &[applied, one])?;
    let none = store.make_tuple(&[])?;
    let single = store.make_tuple(&[applied])?;
    let triple = store.make_tuple(&[applied, one, one])?;
    run.begin(store, &[], &[])?;
    assert!(rt; run.hear(store, BEYOND) == Err(invalid(0)));
    for handle in [one, crypt, applied, applied_two, none, single, triple] {
        assert!(rt; run.hear(store, handle) == Err(RunFault::Mismatch { place: 1 }));
    }
    assert!(rt; empty(&run, &[0, 1, 2, 3]));
    let pair = store.make_tuple(&[applied, one])?;
    run.hear(store, pair)?;
    Ok(())
}

fn no_applications<S: Store>(rt: &impl Abort, heap: Global, store: &mut S) -> Result<(), Fail> {
    let rows = opener();
    let mut run = run_of(heap, &rows)?;
    let one = store.make_atom(1)?;
    let applied = store.make_apply(2, &[one])?;
    let crypt = store.make_crypt(one, one)?;
    let tuple = store.make_tuple(&[one])?;
    let other = store.make_apply(1, &[one])?;
    let short = store.make_apply(2, &[])?;
    let long = store.make_apply(2, &[one, one])?;
    run.begin(store, &[], &[])?;
    for part in [one, crypt, tuple, other, short, long] {
        let pair = store.make_tuple(&[part, one])?;
        assert!(rt; run.hear(store, pair) == Err(RunFault::Mismatch { place: 2 }));
    }
    let unequal = store.make_tuple(&[applied, applied])?;
    assert!(rt; run.hear(store, unequal) == Err(RunFault::Mismatch { place: 3 }));
    assert!(rt; empty(&run, &[0, 1, 2, 3]));
    let pair = store.make_tuple(&[applied, one])?;
    run.hear(store, pair)?;
    Ok(())
}

#[test]
fn other_kinds_and_counts(rt: HostRuntime) -> Result<(), Fail> {
    let heap = rt.alloc();
    no_pairs(&rt, heap, &mut Rows::new(heap, 20)?)?;
    no_pairs(&rt, heap, &mut Tape::new(heap, 200)?)
}

#[test]
fn other_functions_and_parts(rt: HostRuntime) -> Result<(), Fail> {
    let heap = rt.alloc();
    no_applications(&rt, heap, &mut Rows::new(heap, 20)?)?;
    no_applications(&rt, heap, &mut Tape::new(heap, 250)?)
}
