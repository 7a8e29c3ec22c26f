// A say that makes one value of each kind, on stores that are full at each of them.
use crate::ask::{all_replied, begin, full, hear, register, replied, say, session};
use crate::texts::EACH_KIND;
use rows::rows::Rows;
use sessions::reply::Reply;
use sessions::request::Request;
use std::alloc::Global;
use std::process::Abort;
use std::test::Fail;
use store::store::Store;
use tape::tape::Tape;

// The say is refused at one place, and again at another: what it made stays in the store, and leaves less space.
fn full_twice<S: Store>(
    rt: &impl Abort,
    heap: Global,
    store: &mut S,
    first: usize,
    second: usize,
) -> Result<(), Fail> {
    let requests = [
        Request::Atom(1),
        begin(heap, 0, &[0], &[7])?,
        say(0),
        say(0),
        register(0, 1),
        register(0, 2),
        register(0, 3),
        register(0, 4),
    ];
    let replies = session(heap, store, EACH_KIND, &requests)?;
    replied(rt, &replies, &[(2, full(first)), (3, full(second))]);
    all_replied(rt, &replies, &[4, 5, 6, 7], Reply::Empty);
    Ok(())
}

// The space is just that of the key and of what is made.
fn enough<S: Store>(rt: &impl Abort, heap: Global, store: &mut S) -> Result<(), Fail> {
    let requests = [
        Request::Atom(1),
        begin(heap, 0, &[0], &[7])?,
        say(0),
        begin(heap, 1, &[0], &[])?,
        hear(1, 2),
        Request::Space,
    ];
    let replies = session(heap, store, EACH_KIND, &requests)?;
    replied(rt, &replies, &[(4, Reply::Done), (5, Reply::Space(0))]);
    Ok(())
}

#[test]
fn full_row_table(rt: HostRuntime) -> Result<(), Fail> {
    let heap = rt.alloc();
    for place in 1..5usize {
        full_twice(&rt, heap, &mut Rows::new(heap, place)?, place, 1)?;
    }
    enough(&rt, heap, &mut Rows::new(heap, 5)?)
}

// The key has 5 bytes, and what is made 5, 13, 11 and 26: each with no space at all, and with one byte too few.
#[test]
fn full_tape(rt: HostRuntime) -> Result<(), Fail> {
    let heap = rt.alloc();
    for (space, first, second) in [
        (5, 1, 1),
        (9, 1, 1),
        (10, 2, 1),
        (22, 2, 2),
        (23, 3, 1),
        (33, 3, 2),
        (34, 4, 1),
        (59, 4, 3),
    ] {
        full_twice(&rt, heap, &mut Tape::new(heap, space)?, first, second)?;
    }
    enough(&rt, heap, &mut Tape::new(heap, 60)?)
}
