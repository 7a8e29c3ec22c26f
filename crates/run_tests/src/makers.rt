// A line that makes one value of each kind, on stores that are full at each of them: 15, and the line is tried again.
use crate::programs::{maker, run_of};
use crate::refused::{empty, full};
use rows::rows::Rows;
use std::alloc::Global;
use std::process::Abort;
use std::test::Fail;
use store::shape::Shape;
use store::store::Store;
use tape::tape::Tape;

// The say is refused at one place, and again at another: what it made stays in the store, and leaves less space.
fn full_twice<S: Store>(
    rt: &impl Abort,
    heap: Global,
    store: &mut S,
    first: usize,
    second: usize,
) -> Result<(), Fail> {
    let rows = maker();
    let mut run = run_of(heap, &rows)?;
    let key = store.make_atom(1)?;
    run.begin(store, &[key], &[7])?;
    assert!(rt; run.say(store) == Err(full(first)));
    assert!(rt; empty(&run, &[1, 2, 3, 4]));
    assert!(rt; run.say(store) == Err(full(second)));
    assert!(rt; empty(&run, &[1, 2, 3, 4]));
    assert!(rt; run.register(0) == Some(key));
    Ok(())
}

// The space is just that of the key and of what is made.
fn enough<S: Store>(rt: &impl Abort, heap: Global, store: &mut S) -> Result<(), Fail> {
    let rows = maker();
    let mut run = run_of(heap, &rows)?;
    let key = store.make_atom(1)?;
    run.begin(store, &[key], &[7])?;
    let said = run.say(store)?;
    let shape = Shape::Apply {
        function: 2,
        parts: 1,
    };
    assert!(rt; store.shape(said) == Ok(shape));
    assert!(rt; store.space() == 0);
    Ok(())
}

#[test]
fn full_row_table(rt: HostRuntime) -> Result<(), Fail> {
    let heap = rt.alloc();
    for place in 1..5usize {
        full_twice(&rt, heap, &mut Rows::new(heap, place)?, place, 1)?;
    }
    assert!(rt; full(1).number() == 15);
    enough(&rt, heap, &mut Rows::new(heap, 5)?)
}

// The key has 5 bytes, and what is made 5, 11, 18 and 21: each with no space at all, and with one byte too few.
#[test]
fn full_tape(rt: HostRuntime) -> Result<(), Fail> {
    let heap = rt.alloc();
    for (space, first, second) in [
        (5, 1, 1),
        (9, 1, 1),
        (10, 2, 1),
        (20, 2, 2),
        (21, 3, 1),
        (38, 3, 3),
        (39, 4, 1),
        (59, 4, 3),
    ] {
        full_twice(&rt, heap, &mut Tape::new(heap, space)?, first, second)?;
    }
    enough(&rt, heap, &mut Tape::new(heap, 60)?)
}
