// Calls of the runs of a session.
ghost use Rattle.std.specs.Prelude.{◌≡◌};
ghost use Rattle.sessions.specs.declared.reply.Reply.TheVariants as replies;
ghost use Rattle.sessions.specs.Replies.{reply_of, Looks, BeginsAt, SaysAt, HearsAt};

use crate::reply::Reply;
use run::fault::RunFault;
use run::run::Run;
use store::store::Store;

pub(crate) fn begin<S: Store>(
    store: &mut S,
    runs: &mut [Run<'_>],
    role: usize,
    given: &[u32],
    numbers: &[u32],
) -> Reply
    ensures { BeginsAt S.semantics store.old store.new runs.old runs.new role given.now numbers.now result }
{
    if role >= runs.len() {
        return Reply::NoRole;
    }
    done(runs[role].begin(store, given, numbers))
}

pub(crate) fn say<S: Store>(store: &mut S, runs: &mut [Run<'_>], role: usize) -> Reply
    ensures { SaysAt S.semantics store.old store.new runs.old runs.new role result }
{
    if role >= runs.len() {
        return Reply::NoRole;
    }
    told(runs[role].say(store))
}

pub(crate) fn hear<S: Store>(store: &mut S, runs: &mut [Run<'_>], role: usize, handle: u32) -> Reply
    ensures { HearsAt S.semantics store.old store.new runs.old runs.new role handle result }
{
    if role >= runs.len() {
        return Reply::NoRole;
    }
    done(runs[role].hear(store, handle))
}

fn done(answer: Result<(), RunFault>) -> Reply
    ensures { result ≡ reply_of (λ u. replies.Done) answer }
{
    match answer {
        Ok(()) => Reply::Done,
        Err(fault) => Reply::Run(fault),
    }
}

fn told(answer: Result<u32, RunFault>) -> Reply
    ensures { result ≡ reply_of replies.Handle answer }
{
    match answer {
        Ok(handle) => Reply::Handle(handle),
        Err(fault) => Reply::Run(fault),
    }
}

// What a register holds.
pub(crate) fn look(runs: &[Run<'_>], role: usize, number: u16) -> Reply
    ensures { Looks runs.now role number result }
{
    if role >= runs.len() {
        return Reply::NoRole;
    }
    match runs[role].register(number) {
        Some(handle) => Reply::Handle(handle),
        None => Reply::Empty,
    }
}
