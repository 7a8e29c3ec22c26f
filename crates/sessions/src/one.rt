// One request.
ghost use Rattle.std.specs.Prelude.{◌≡◌, ◌≤◌, vec_capacity};
ghost use Rattle.sessions.specs.Replies.{Does};
ghost use Rattle.sessions.specs.Requests.{width};

use crate::calls::{begin, hear, look, say};
use crate::makers::{apply, tuple};
use crate::past::Past;
use crate::questions::{compared, found, shaped};
use crate::reply::Reply;
use crate::request::Request;
use run::run::Run;
use store::store::Store;

// There is room for the handles that the request names.
pub(crate) fn one<S: Store>(
    store: &mut S,
    runs: &mut [Run<'_>],
    past: Past,
    request: &Request,
    room: &mut Vec<u32>,
) -> Reply
    requires { width request.now ≤ vec_capacity room.old }
    ensures does { Does S.semantics store.old store.new runs.old runs.new past.entry.replies.now request.now result }
    ensures capacity { vec_capacity room.new ≡ vec_capacity room.old }
{
    match request {
        Request::Begin {
            role,
            given,
            numbers,
        } => {
            past.handles(given.as_slice(), room);
            begin(store, runs, *role, room.as_slice(), numbers.as_slice())
        }
        Request::Say { role } => say(store, runs, *role),
        Request::Hear { role, handle } => hear(store, runs, *role, past.handle(*handle)),
        Request::Register { role, number } => look(runs, *role, *number),
        Request::Atom(number) => found(store.make_atom(*number)),
        Request::Tuple(parts) => tuple(store, past, parts.as_slice(), room),
        Request::Crypt { text, key } => {
            found(store.make_crypt(past.handle(*text), past.handle(*key)))
        }
        Request::Apply { function, parts } => {
            apply(store, past, *function, parts.as_slice(), room)
        }
        Request::Shape(handle) => shaped(store.shape(past.handle(*handle))),
        Request::Part { of, index } => found(store.part(past.handle(*of), *index)),
        Request::Unlock { of, key } => found(store.unlock(past.handle(*of), past.handle(*key))),
        Request::Same { left, right } => {
            compared(store.same(past.handle(*left), past.handle(*right)))
        }
        Request::Space => Reply::Space(store.space()),
    }
}
