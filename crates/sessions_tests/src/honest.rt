// Honest sessions.
use crate::ask::{all_replied, begin, hear, register, replied, same, say, session};
use crate::texts::{ANSWERED, TWO_LINES};
use rows::rows::Rows;
use sessions::reply::Reply;
use sessions::request::Request;
use std::alloc::Global;
use std::process::Abort;
use std::test::Fail;
use store::store::Store;
use tape::tape::Tape;

// The space is that of the key, the new atom and a ciphertext of both.
fn answered<S: Store>(rt: &impl Abort, heap: Global, store: &mut S) -> Result<(), Fail> {
    let requests = [
        Request::Atom(1),
        begin(heap, 0, &[0], &[7])?,
        begin(heap, 1, &[0], &[])?,
        say(0),
        hear(1, 3),
        say(1),
        hear(0, 5),
        register(0, 3),
        same(7, 3),
        register(0, 9),
        say(2),
        Request::Space,
    ];
    let replies = session(heap, store, ANSWERED, &requests)?;
    assert!(rt; replies.len() == 12);
    all_replied(rt, &replies, &[1, 2, 4, 6], Reply::Done);
    let expected = [
        (8, Reply::Same(true)),
        (9, Reply::Empty),
        (10, Reply::NoRole),
        (11, Reply::Space(0)),
    ];
    replied(rt, &replies, &expected);
    Ok(())
}

#[test]
fn honest(rt: HostRuntime) -> Result<(), Fail> {
    let heap = rt.alloc();
    answered(&rt, heap, &mut Rows::new(heap, 3)?)?;
    answered(&rt, heap, &mut Tape::new(heap, 5 + 5 + 11)?)
}

// The space is that of the key, the new atom, a pair and a ciphertext of both.
fn two_lines<S: Store>(rt: &impl Abort, heap: Global, store: &mut S) -> Result<(), Fail> {
    let requests = [
        Request::Atom(1),
        begin(heap, 0, &[0], &[7])?,
        begin(heap, 1, &[0], &[])?,
        say(0),
        hear(1, 3),
        say(0),
        hear(1, 5),
        register(0, 1),
        register(1, 5),
        same(7, 8),
        Request::Space,
    ];
    let replies = session(heap, store, TWO_LINES, &requests)?;
    all_replied(rt, &replies, &[1, 2, 4, 6], Reply::Done);
    replied(
        rt,
        &replies,
        &[(9, Reply::Same(true)), (10, Reply::Space(0))],
    );
    Ok(())
}

#[test]
fn honest_in_two_lines(rt: HostRuntime) -> Result<(), Fail> {
    let heap = rt.alloc();
    two_lines(&rt, heap, &mut Rows::new(heap, 4)?)?;
    two_lines(&rt, heap, &mut Tape::new(heap, 5 + 5 + 12 + 11)?)
}
