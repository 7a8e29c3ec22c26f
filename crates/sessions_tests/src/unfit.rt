// A pair of an application and a ciphertext is due, and something else arrives.
use crate::ask::{
    all_replied, apply, begin, crypt, hear, locked, register, replied, session, tuple, unfit,
};
use crate::texts::EACH_KIND;
use rows::rows::Rows;
use sessions::reply::Reply;
use sessions::request::Request;
use std::alloc::{AllocError, Global};
use std::process::Abort;
use std::test::Fail;
use store::store::Store;
use tape::tape::Tape;

// The key, the atom, and the begin; then the application and the ciphertext that are due, and their pair.
fn due(heap: Global) -> Result<Vec<Request>, AllocError> {
    let mut requests = Vec::new(heap);
    requests.push(Request::Atom(1))?;
    requests.push(Request::Atom(7))?;
    requests.push(begin(heap, 1, &[0], &[])?)?;
    requests.push(apply(heap, 0, &[1, 0])?)?;
    requests.push(crypt(1, 0))?;
    requests.push(tuple(heap, &[3, 4])?)?;
    Ok(requests)
}

// Another kind, one and three parts; then an atom, another function and one part in place of the application.
fn shapes<S: Store>(rt: &impl Abort, heap: Global, store: &mut S) -> Result<(), Fail> {
    let mut requests = due(heap)?;
    requests.push(tuple(heap, &[3])?)?;
    requests.push(tuple(heap, &[3, 4, 4])?)?;
    requests.push(apply(heap, 1, &[1, 0])?)?;
    requests.push(apply(heap, 0, &[1])?)?;
    requests.push(tuple(heap, &[1, 4])?)?;
    requests.push(tuple(heap, &[8, 4])?)?;
    requests.push(tuple(heap, &[9, 4])?)?;
    for place in [3, 6, 7, 10, 11, 12] {
        requests.push(hear(1, place))?;
    }
    requests.push(register(1, 1))?;
    requests.push(hear(1, 5))?;
    let replies = session(heap, store, EACH_KIND, requests.as_slice())?;
    all_replied(rt, &replies, &[13, 14, 15], unfit(2));
    all_replied(rt, &replies, &[16, 17, 18], unfit(3));
    replied(rt, &replies, &[(19, Reply::Empty), (20, Reply::Done)]);
    Ok(())
}

#[test]
fn other_shapes(rt: HostRuntime) -> Result<(), Fail> {
    let heap = rt.alloc();
    shapes(&rt, heap, &mut Rows::new(heap, 20)?)?;
    shapes(&rt, heap, &mut Tape::new(heap, 400)?)
}

// The application is to another part; the ciphertext has another key, is none, or has another text.
fn parts<S: Store>(rt: &impl Abort, heap: Global, store: &mut S) -> Result<(), Fail> {
    let mut requests = due(heap)?;
    requests.push(apply(heap, 0, &[1, 1])?)?;
    requests.push(crypt(1, 1))?;
    requests.push(crypt(0, 0))?;
    requests.push(tuple(heap, &[6, 4])?)?;
    requests.push(tuple(heap, &[3, 7])?)?;
    requests.push(tuple(heap, &[3, 3])?)?;
    requests.push(tuple(heap, &[3, 8])?)?;
    for place in [9, 10, 11, 12] {
        requests.push(hear(1, place))?;
    }
    requests.push(register(1, 1))?;
    requests.push(hear(1, 5))?;
    let replies = session(heap, store, EACH_KIND, requests.as_slice())?;
    all_replied(rt, &replies, &[14, 15], locked(5));
    replied(
        rt,
        &replies,
        &[
            (13, unfit(4)),
            (16, unfit(6)),
            (17, Reply::Empty),
            (18, Reply::Done),
        ],
    );
    Ok(())
}

#[test]
fn other_parts(rt: HostRuntime) -> Result<(), Fail> {
    let heap = rt.alloc();
    parts(&rt, heap, &mut Rows::new(heap, 20)?)?;
    parts(&rt, heap, &mut Tape::new(heap, 400)?)
}
