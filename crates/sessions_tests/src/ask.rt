// Requests, and what they are replied.
use run::fault::RunFault;
use sessions::perform::perform;
use sessions::reply::Reply;
use sessions::request::{Handle, Request};
use std::alloc::{AllocError, Global};
use std::process::Abort;
use std::test::Fail;
use store::fault::StoreFault;
use store::store::Store;
use terms::limits::Limits;

pub(crate) fn session<S: Store>(
    heap: Global,
    store: &mut S,
    text: &[u8],
    requests: &[Request],
) -> Result<Vec<Reply>, Fail> {
    Ok(perform(heap, store, text, Limits::standard(), requests)?)
}

// The requests at these places are replied so.
pub(crate) fn replied(rt: &impl Abort, replies: &Vec<Reply>, expected: &[(usize, Reply)]) {
    for pair in expected {
        let (place, reply) = *pair;
        assert!(rt; replies.get(place).copied() == Some(reply), "at {place}");
    }
}

// All these requests have one reply.
pub(crate) fn all_replied(
    rt: &impl Abort,
    replies: &Vec<Reply>,
    places: &[usize],
    expected: Reply,
) {
    for place in places {
        assert!(rt;
            replies.get(*place).copied() == Some(expected),
            "at {place}"
        );
    }
}

// Handles are told by the places of the requests that answered them.
fn answers(heap: Global, places: &[usize]) -> Result<Vec<Handle>, AllocError> {
    let mut handles = Vec::new(heap);
    for place in places {
        handles.push(Handle::Answer(*place))?;
    }
    Ok(handles)
}

pub(crate) fn begin(
    heap: Global,
    role: usize,
    given: &[usize],
    numbers: &[u32],
) -> Result<Request, AllocError> {
    let given = answers(heap, given)?;
    let mut taken = Vec::new(heap);
    for number in numbers {
        taken.push(*number)?;
    }
    Ok(Request::Begin {
        role,
        given,
        numbers: taken,
    })
}

pub(crate) fn say(role: usize) -> Request {
    Request::Say { role }
}

pub(crate) fn hear(role: usize, place: usize) -> Request {
    let handle = Handle::Answer(place);
    Request::Hear { role, handle }
}

pub(crate) fn register(role: usize, number: u16) -> Request {
    Request::Register { role, number }
}

pub(crate) fn tuple(heap: Global, parts: &[usize]) -> Result<Request, AllocError> {
    Ok(Request::Tuple(answers(heap, parts)?))
}

pub(crate) fn apply(heap: Global, function: u8, parts: &[usize]) -> Result<Request, AllocError> {
    let parts = answers(heap, parts)?;
    Ok(Request::Apply { function, parts })
}

pub(crate) fn crypt(text: usize, key: usize) -> Request {
    Request::Crypt {
        text: Handle::Answer(text),
        key: Handle::Answer(key),
    }
}

pub(crate) fn shape(place: usize) -> Request {
    Request::Shape(Handle::Answer(place))
}

pub(crate) fn same(left: usize, right: usize) -> Request {
    Request::Same {
        left: Handle::Answer(left),
        right: Handle::Answer(right),
    }
}

// A run's refusals.
pub(crate) fn out_of_turn(place: usize) -> Reply {
    Reply::Run(RunFault::OutOfTurn { place })
}

pub(crate) fn counts(place: usize) -> Reply {
    Reply::Run(RunFault::Counts { place })
}

pub(crate) fn unfit(place: usize) -> Reply {
    Reply::Run(RunFault::Mismatch { place })
}

pub(crate) fn invalid(place: usize) -> Reply {
    of_store(StoreFault::Invalid, place)
}

pub(crate) fn locked(place: usize) -> Reply {
    of_store(StoreFault::Mismatch, place)
}

pub(crate) fn full(place: usize) -> Reply {
    of_store(StoreFault::Full, place)
}

fn of_store(fault: StoreFault, place: usize) -> Reply {
    Reply::Run(RunFault::Store { fault, place })
}
