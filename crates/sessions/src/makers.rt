// Compounds that are made of the handles that a request names.
ghost use Rattle.std.specs.Prelude.{◌≡◌, ◌≤◌, length, vec_capacity};
ghost use Rattle.model.specs.Trees.{tupled, applied};
ghost use Rattle.store.specs.Makers.{wanted};
ghost use Rattle.sessions.specs.Replies.{Made};
ghost use Rattle.sessions.specs.Requests.{handles_of};

use crate::past::Past;
use crate::questions::found;
use crate::reply::Reply;
use crate::request::Handle;
use store::store::Store;

pub(crate) fn tuple<S: Store>(
    store: &mut S,
    past: Past,
    parts: &[Handle],
    room: &mut Vec<u32>,
) -> Reply
    requires { length parts.now ≤ vec_capacity room.old }
    ensures made { Made S.semantics store.old store.new (wanted (S.semantics.means store.old) tupled (handles_of past.entry.replies.now parts.now)) result }
    ensures capacity { vec_capacity room.new ≡ vec_capacity room.old }
{
    past.handles(parts, room);
    found(store.make_tuple(room.as_slice()))
}

pub(crate) fn apply<S: Store>(
    store: &mut S,
    past: Past,
    function: u8,
    parts: &[Handle],
    room: &mut Vec<u32>,
) -> Reply
    requires { length parts.now ≤ vec_capacity room.old }
    ensures made { Made S.semantics store.old store.new (wanted (S.semantics.means store.old) (applied function) (handles_of past.entry.replies.now parts.now)) result }
    ensures capacity { vec_capacity room.new ≡ vec_capacity room.old }
{
    past.handles(parts, room);
    found(store.make_apply(function, room.as_slice()))
}
