// Two lists of requests, one after the other, on runs that are lent.
use crate::ask::{begin, say};
use crate::texts::ANSWERED;
use roles::translate::translate;
use rows::rows::Rows;
use sessions::perform::perform_on;
use sessions::reply::Reply;
use sessions::request::{Handle, Request};
use sessions::runs::{counts_of, runs_of};
use std::test::Fail;
use terms::limits::Limits;

#[test]
fn lent(rt: HostRuntime) -> Result<(), Fail> {
    let heap = rt.alloc();
    let mut store = Rows::new(heap, 3)?;
    let translation = translate(heap, ANSWERED, Limits::standard())?;
    let counts = counts_of(heap, translation.declarations.functions())?;
    let mut runs = runs_of(heap, &translation, counts.as_slice())?;
    let first = [
        Request::Atom(1),
        begin(heap, 0, &[0], &[7])?,
        begin(heap, 1, &[0], &[])?,
        say(0),
    ];
    let replies = perform_on(heap, &mut store, runs.as_mut_slice(), &first)?;
    let said = match replies.get(3) {
        Some(Reply::Handle(number)) => *number,
        _ => 4294967295,
    };
    let second = [
        Request::Hear {
            role: 1,
            handle: Handle::Number(said),
        },
        say(1),
        say(1),
        Request::Space,
    ];
    let replies = perform_on(heap, &mut store, runs.as_mut_slice(), &second)?;
    assert!(rt; replies.get(0).copied() == Some(Reply::Done));
    assert!(rt; replies.get(3).copied() == Some(Reply::Space(0)));
    Ok(())
}
