// Calls out of turn: each is refused with 11, and loses nothing.
use crate::ask::{
    all_replied, begin, hear, out_of_turn, register, replied, same, say, session, shape,
};
use crate::texts::ANSWERED;
use rows::rows::Rows;
use sessions::reply::Reply;
use sessions::request::Request;
use std::alloc::Global;
use std::process::Abort;
use std::test::Fail;
use store::shape::Shape;
use store::store::Store;
use tape::tape::Tape;

fn early<S: Store>(rt: &impl Abort, heap: Global, store: &mut S) -> Result<(), Fail> {
    let requests = [
        Request::Atom(1),
        say(0),
        hear(1, 0),
        begin(heap, 0, &[0], &[7])?,
        // begin twice, and hear for say
        begin(heap, 0, &[0], &[8])?,
        begin(heap, 0, &[], &[])?,
        hear(0, 0),
        say(0),
        shape(7),
        // say for hear
        say(0),
        begin(heap, 1, &[0], &[])?,
        say(1),
        hear(1, 7),
        hear(1, 7),
        say(1),
        hear(0, 14),
        Request::Space,
    ];
    let replies = session(heap, store, ANSWERED, &requests)?;
    all_replied(rt, &replies, &[1, 2], out_of_turn(0));
    all_replied(rt, &replies, &[4, 5, 6, 11], out_of_turn(1));
    all_replied(rt, &replies, &[3, 10, 12, 15], Reply::Done);
    replied(
        rt,
        &replies,
        &[
            (8, Reply::Shape(Shape::Atom(7))),
            (9, out_of_turn(3)),
            (13, out_of_turn(2)),
            (16, Reply::Space(0)),
        ],
    );
    Ok(())
}

#[test]
fn before_the_end(rt: HostRuntime) -> Result<(), Fail> {
    let heap = rt.alloc();
    early(&rt, heap, &mut Rows::new(heap, 3)?)?;
    early(&rt, heap, &mut Tape::new(heap, 5 + 5 + 11)?)
}

fn late<S: Store>(rt: &impl Abort, heap: Global, store: &mut S) -> Result<(), Fail> {
    let requests = [
        Request::Atom(1),
        begin(heap, 0, &[0], &[7])?,
        begin(heap, 1, &[0], &[])?,
        say(0),
        hear(1, 3),
        say(1),
        hear(0, 5),
        begin(heap, 0, &[0], &[8])?,
        say(0),
        hear(0, 5),
        begin(heap, 1, &[0], &[])?,
        say(1),
        hear(1, 3),
        register(0, 1),
        same(13, 3),
        Request::Space,
    ];
    let replies = session(heap, store, ANSWERED, &requests)?;
    all_replied(rt, &replies, &[7, 8, 9], out_of_turn(6));
    all_replied(rt, &replies, &[10, 11, 12], out_of_turn(4));
    replied(
        rt,
        &replies,
        &[(14, Reply::Same(true)), (15, Reply::Space(0))],
    );
    Ok(())
}

#[test]
fn after_the_end(rt: HostRuntime) -> Result<(), Fail> {
    let heap = rt.alloc();
    late(&rt, heap, &mut Rows::new(heap, 3)?)?;
    late(&rt, heap, &mut Tape::new(heap, 5 + 5 + 11)?)
}
