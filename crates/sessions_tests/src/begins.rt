// Begins that are refused, and a text that is.
use crate::ask::{
    all_replied, begin, counts, invalid, out_of_turn, register, replied, say, session, shape,
};
use crate::texts::ANSWERED;
use roles::translation_fault::TranslationFault;
use rows::rows::Rows;
use sessions::fault::SessionFault;
use sessions::perform::perform;
use sessions::reply::Reply;
use sessions::request::Request;
use std::alloc::Global;
use std::process::Abort;
use std::test::Fail;
use store::shape::Shape;
use store::store::Store;
use tape::tape::Tape;
use terms::limits::Limits;

// 13 for a wrong count of values or of numbers, 12 for a value that no request has answered: and then nothing is lost.
fn miscounted<S: Store>(rt: &impl Abort, heap: Global, store: &mut S) -> Result<(), Fail> {
    let requests = [
        Request::Atom(1),
        begin(heap, 0, &[], &[7])?,
        begin(heap, 0, &[0, 0], &[7])?,
        begin(heap, 0, &[0], &[])?,
        begin(heap, 0, &[0], &[7, 8])?,
        begin(heap, 0, &[4], &[])?,
        begin(heap, 0, &[4], &[8])?,
        register(0, 0),
        say(0),
        begin(heap, 2, &[], &[])?,
        begin(heap, 0, &[0], &[7])?,
        say(0),
        shape(11),
        Request::Space,
    ];
    let replies = session(heap, store, ANSWERED, &requests)?;
    all_replied(rt, &replies, &[1, 2, 3, 4, 5], counts(0));
    replied(
        rt,
        &replies,
        &[
            (6, invalid(0)),
            (7, Reply::Empty),
            (8, out_of_turn(0)),
            (9, Reply::NoRole),
            (10, Reply::Done),
            (12, Reply::Shape(Shape::Atom(7))),
            (13, Reply::Space(0)),
        ],
    );
    Ok(())
}

#[test]
fn begins(rt: HostRuntime) -> Result<(), Fail> {
    let heap = rt.alloc();
    miscounted(&rt, heap, &mut Rows::new(heap, 2)?)?;
    miscounted(&rt, heap, &mut Tape::new(heap, 5 + 5)?)
}

// No request is performed.
fn not_begun<S: Store>(rt: &impl Abort, heap: Global, store: &mut S) {
    let space = store.space();
    let requests = [Request::Atom(1)];
    let result = perform(heap, store, b"(", Limits::standard(), &requests);
    assert!(rt;
        matches!(
            result,
            Err(SessionFault::Translation(TranslationFault::Text(_)))
        )
    );
    assert!(rt; store.space() == space);
}

#[test]
fn refused_text(rt: HostRuntime) -> Result<(), Fail> {
    let heap = rt.alloc();
    not_begun(&rt, heap, &mut Rows::new(heap, 4)?);
    not_begun(&rt, heap, &mut Tape::new(heap, 20)?);
    Ok(())
}
