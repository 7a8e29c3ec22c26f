// Lines that arrive at another time.
use crate::ask::{
    all_replied, begin, crypt, hear, invalid, locked, out_of_turn, register, replied, say, session,
    shape, unfit,
};
use crate::texts::{ANSWERED, TWO_LINES};
use rows::rows::Rows;
use sessions::reply::Reply;
use sessions::request::Request;
use std::alloc::Global;
use std::process::Abort;
use std::test::Fail;
use store::shape::Shape;
use store::store::Store;
use tape::tape::Tape;

// An answer to another atom, under the key, is not taken, and the run then takes the one that is due.
fn old_answer<S: Store>(rt: &impl Abort, heap: Global, store: &mut S) -> Result<(), Fail> {
    let requests = [
        Request::Atom(1),
        Request::Atom(6),
        crypt(1, 0),
        begin(heap, 0, &[0], &[7])?,
        say(0),
        hear(0, 2),
        // a begin answers no handle
        hear(0, 3),
        register(0, 2),
        crypt(4, 0),
        hear(0, 8),
        say(0),
    ];
    let replies = session(heap, store, ANSWERED, &requests)?;
    replied(
        rt,
        &replies,
        &[
            (5, unfit(5)),
            (6, invalid(3)),
            (7, Reply::Empty),
            (9, Reply::Done),
            (10, out_of_turn(6)),
        ],
    );
    Ok(())
}

#[test]
fn old_line(rt: HostRuntime) -> Result<(), Fail> {
    let heap = rt.alloc();
    old_answer(&rt, heap, &mut Rows::new(heap, 5)?)?;
    old_answer(&rt, heap, &mut Tape::new(heap, 3 * 5 + 2 * 11)?)
}

// Line 2 arrives for line 1, and then line 1 for line 2.
fn swapped<S: Store>(rt: &impl Abort, heap: Global, store: &mut S) -> Result<(), Fail> {
    let requests = [
        Request::Atom(1),
        begin(heap, 0, &[0], &[7])?,
        begin(heap, 1, &[0], &[])?,
        say(0),
        say(0),
        hear(1, 4),
        register(1, 1),
        hear(1, 3),
        hear(1, 3),
        register(1, 4),
        hear(1, 4),
        register(1, 5),
        shape(11),
    ];
    let replies = session(heap, store, TWO_LINES, &requests)?;
    all_replied(rt, &replies, &[6, 9], Reply::Empty);
    all_replied(rt, &replies, &[7, 10], Reply::Done);
    replied(
        rt,
        &replies,
        &[
            (5, unfit(2)),
            (8, locked(5)),
            (12, Reply::Shape(Shape::Atom(7))),
        ],
    );
    Ok(())
}

#[test]
fn swapped_lines(rt: HostRuntime) -> Result<(), Fail> {
    let heap = rt.alloc();
    swapped(&rt, heap, &mut Rows::new(heap, 4)?)?;
    swapped(&rt, heap, &mut Tape::new(heap, 5 + 5 + 12 + 11)?)
}
