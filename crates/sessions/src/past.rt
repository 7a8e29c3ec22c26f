// The replies so far, which tell the handles that requests name.
ghost use Rattle.std.specs.Prelude.{◌≡◌, ◌≤◌, length, vec_capacity};
ghost use Rattle.sessions.specs.Requests.{handle_of, handles_of};

use crate::reply::Reply;
use crate::request::Handle;

// no store has a value for this handle
const NO_HANDLE: u32 = 4294967295;

#[derive(Clone, Copy)]
pub(crate) struct Past<'a> {
    pub(crate) replies: &'a [Reply],
}

impl<'a> Past<'a> {
    pub(crate) fn handle(self, handle: Handle) -> u32
        ensures { result ≡ handle_of self.entry.replies.now handle }
    {
        match handle {
            Handle::Number(number) => number,
            Handle::Answer(place) => match self.replies.get(place) {
                Some(Reply::Handle(number)) => *number,
                _ => NO_HANDLE,
            },
        }
    }

    // The room takes the handles, and nothing else.
    pub(crate) fn handles(self, handles: &[Handle], room: &mut Vec<u32>)
        requires { length handles.now ≤ vec_capacity room.old }
        ensures items { room.new.items ≡ handles_of self.entry.replies.now handles.now }
        ensures capacity { vec_capacity room.new ≡ vec_capacity room.old }
    {
        room.clear();
        for handle in handles {
            room.push_reserved(self.handle(*handle));
        }
    }
}
