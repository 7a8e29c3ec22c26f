// The public calls: a session of a text's roles over a store, and requests on runs that are lent.
ghost use Rattle.std.specs.Prelude.{◌<◌, ◌≤◌, ℕ, length, slice_index_or};
ghost use Rattle.sessions.specs.declared.request.Request.{Request as Asked};
ghost use Rattle.sessions.specs.Performing.{Performs, PerformsOn};
ghost use Rattle.sessions.specs.Requests.{width};

use crate::fault::{RunsFault, SessionFault};
use crate::one::one;
use crate::past::Past;
use crate::reply::Reply;
use crate::request::Request;
use crate::runs::{counts_of, runs_of};
use base::{NoMemory, with_room};
use roles::translate::translate;
use run::run::Run;
use std::alloc::Global;
use store::store::Store;
use terms::limits::Limits;

/// The text is translated, each of its roles gets a new run over the store, and the requests are performed one by one. There is one
/// reply for each request. Where the text is refused or memory lacks, nothing is performed and the store is as it was.
pub fn perform<S: Store>(
    heap: Global,
    store: &mut S,
    text: &[u8],
    limits: Limits,
    requests: &[Request],
) -> Result<Vec<Reply>, SessionFault>
    ensures { Performs S.semantics limits text.now requests.now store.old store.new result }
{
    let translation = translate(heap, text, limits)?;
    let counts = counts_of(heap, translation.declarations.functions())?;
    let mut runs = match runs_of(heap, &translation, counts.as_slice()) {
        Ok(runs) => runs,
        Err(RunsFault::NoMemory(lack)) => return Err(SessionFault::NoMemory(lack)),
        Err(RunsFault::Unsound) => unreachable!(),
    };
    Ok(perform_on(heap, store, runs.as_mut_slice(), requests)?)
}

/// The requests are performed one by one, on runs that are there. Roles are told by the places of their runs. All memory is taken
/// before the first request: where it lacks, nothing is performed, and the store and the runs are as they were.
pub fn perform_on<S: Store>(
    heap: Global,
    store: &mut S,
    runs: &mut [Run<'_>],
    requests: &[Request],
) -> Result<Vec<Reply>, NoMemory>
    ensures { PerformsOn S.semantics store.old store.new runs.old runs.new requests.now result }
{
    let mut room = with_room(heap, widest(requests))?;
    let mut replies = with_room(heap, requests.len())?;
    for request in requests {
        let past = Past {
            replies: replies.as_slice(),
        };
        let reply = one(store, runs, past, request, &mut room);
        replies.push_reserved(reply);
    }
    Ok(replies)
}

// The most handles that one of the requests names in a list.
fn widest(requests: &[Request]) -> usize
    ensures { (k : ℕ) → (q : Asked) → k < length requests.now → width (slice_index_or requests.now k q) ≤ result }
{
    let mut most = 0;
    for request in requests {
        most = most.max(request.width());
    }
    most
}
