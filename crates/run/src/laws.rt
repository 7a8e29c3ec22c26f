// Laws of all calls of runs.
ghost use Rattle.run.specs.CallLaw.{CallLaw};
ghost use Rattle.run.specs.Called.{ValueLaw};

use store::store::Store;

/// Whatever the store, and whatever the registers hold there: out of turn or with wrong counts a call alters nothing; any other
/// refused call empties its line's registers and keeps its place; a taken call fills them with valid handles.
pub fn calls_keep_runs<S: Store>()
    ensures { CallLaw S.semantics }
{}

/// Whatever begin, say and hear do to a run on any store, they do to each run on values that it shows there.
pub fn values_follow<S: Store>()
    ensures { ValueLaw S.semantics }
{}
