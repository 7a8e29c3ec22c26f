// What a store is asked, and what it refuses.
use crate::ask::{all_replied, apply, crypt, replied, same, session, shape, tuple};
use crate::texts::ANSWERED;
use rows::rows::Rows;
use sessions::reply::Reply;
use sessions::request::{Handle, Request};
use std::alloc::Global;
use std::process::Abort;
use std::test::Fail;
use store::fault::StoreFault;
use store::shape::Shape;
use store::store::Store;
use tape::tape::Tape;

fn part(place: usize, index: usize) -> Request {
    let of = Handle::Answer(place);
    Request::Part { of, index }
}

fn unlock(place: usize, key: usize) -> Request {
    Request::Unlock {
        of: Handle::Answer(place),
        key: Handle::Answer(key),
    }
}

// The space is that of an atom, of the pair of it twice, of the pair under the atom, and of an application to nothing.
fn asked<S: Store>(rt: &impl Abort, heap: Global, store: &mut S) -> Result<(), Fail> {
    let requests = [
        Request::Atom(1),
        tuple(heap, &[0, 0])?,
        crypt(1, 0),
        apply(heap, 5, &[])?,
        shape(1),
        shape(2),
        shape(3),
        part(1, 1),
        same(7, 0),
        unlock(2, 0),
        same(9, 1),
        same(9, 2),
        Request::Space,
    ];
    let replies = session(heap, store, ANSWERED, &requests)?;
    let applied = Shape::Apply {
        function: 5,
        parts: 0,
    };
    replied(
        rt,
        &replies,
        &[
            (4, Reply::Shape(Shape::Tuple { parts: 2 })),
            (5, Reply::Shape(Shape::Crypt)),
            (6, Reply::Shape(applied)),
            (8, Reply::Same(true)),
            (10, Reply::Same(true)),
            (11, Reply::Same(false)),
            (12, Reply::Space(0)),
        ],
    );
    Ok(())
}

// The space is that of an atom, and of its pair with itself. A handle that no request before has answered is not valid.
fn refused<S: Store>(rt: &impl Abort, heap: Global, store: &mut S) -> Result<(), Fail> {
    let requests = [
        Request::Atom(1),
        tuple(heap, &[0, 0])?,
        part(1, 2),
        part(0, 0),
        tuple(heap, &[0; 9])?,
        unlock(1, 0),
        shape(2),
        shape(9),
        part(6, 0),
        unlock(0, 9),
        same(0, 10),
        crypt(0, 11),
        Request::Atom(2),
        tuple(heap, &[])?,
    ];
    let replies = session(heap, store, ANSWERED, &requests)?;
    all_replied(rt, &replies, &[2, 3, 4], Reply::Store(StoreFault::NoPart));
    all_replied(rt, &replies, &[5], Reply::Store(StoreFault::Mismatch));
    let invalid = Reply::Store(StoreFault::Invalid);
    all_replied(rt, &replies, &[6, 7, 8, 9, 10, 11], invalid);
    all_replied(rt, &replies, &[12, 13], Reply::Store(StoreFault::Full));
    Ok(())
}

#[test]
fn questions(rt: HostRuntime) -> Result<(), Fail> {
    let heap = rt.alloc();
    asked(&rt, heap, &mut Rows::new(heap, 4)?)?;
    asked(&rt, heap, &mut Tape::new(heap, 5 + 12 + 18 + 3)?)
}

#[test]
fn refused_questions(rt: HostRuntime) -> Result<(), Fail> {
    let heap = rt.alloc();
    refused(&rt, heap, &mut Rows::new(heap, 2)?)?;
    refused(&rt, heap, &mut Tape::new(heap, 5 + 12)?)
}
