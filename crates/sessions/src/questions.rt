// Questions to a store, and what it makes.
ghost use Rattle.std.specs.Prelude.{◌≡◌};
ghost use Rattle.sessions.specs.declared.reply.Reply.TheVariants as replies;
ghost use Rattle.sessions.specs.Replies.{reply_by};

use crate::reply::Reply;
use store::fault::StoreFault;
use store::shape::Shape;

// A handle that a store answers.
pub(crate) fn found(answer: Result<u32, StoreFault>) -> Reply
    ensures { result ≡ reply_by replies.Handle answer }
{
    match answer {
        Ok(handle) => Reply::Handle(handle),
        Err(fault) => Reply::Store(fault),
    }
}

pub(crate) fn shaped(answer: Result<Shape, StoreFault>) -> Reply
    ensures { result ≡ reply_by replies.Shape answer }
{
    match answer {
        Ok(shape) => Reply::Shape(shape),
        Err(fault) => Reply::Store(fault),
    }
}

pub(crate) fn compared(answer: Result<bool, StoreFault>) -> Reply
    ensures { result ≡ reply_by replies.Same answer }
{
    match answer {
        Ok(same) => Reply::Same(same),
        Err(fault) => Reply::Store(fault),
    }
}
