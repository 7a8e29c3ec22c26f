// A ciphertext is due, and something else arrives.
use crate::ask::{
    all_replied, apply, begin, crypt, hear, locked, register, replied, say, session, tuple, unfit,
};
use crate::texts::ANSWERED;
use rows::rows::Rows;
use sessions::reply::Reply;
use sessions::request::Request;
use std::alloc::Global;
use std::process::Abort;
use std::test::Fail;
use store::store::Store;
use tape::tape::Tape;

// An atom, a tuple, an application, another key, and text and key swapped; then another text, and then an equal one.
fn other_kinds<S: Store>(rt: &impl Abort, heap: Global, store: &mut S) -> Result<(), Fail> {
    let requests = [
        Request::Atom(1),
        Request::Atom(2),
        begin(heap, 0, &[0], &[7])?,
        say(0),
        tuple(heap, &[3, 0])?,
        apply(heap, 5, &[3])?,
        crypt(3, 1),
        crypt(0, 3),
        crypt(1, 0),
        hear(0, 3),
        hear(0, 4),
        hear(0, 5),
        hear(0, 6),
        hear(0, 7),
        hear(0, 8),
        register(0, 2),
        Request::Atom(7),
        crypt(16, 0),
        hear(0, 17),
    ];
    let replies = session(heap, store, ANSWERED, &requests)?;
    all_replied(rt, &replies, &[9, 10, 11, 12, 13], locked(4));
    replied(
        rt,
        &replies,
        &[(14, unfit(5)), (15, Reply::Empty), (18, Reply::Done)],
    );
    Ok(())
}

#[test]
fn misheard(rt: HostRuntime) -> Result<(), Fail> {
    let heap = rt.alloc();
    other_kinds(&rt, heap, &mut Rows::new(heap, 20)?)?;
    other_kinds(&rt, heap, &mut Tape::new(heap, 100)?)
}
