// Any calls in order, on any store.
ghost use Rattle.std.specs.Prelude.{◌≡◌, ℕ, ◌+◌, ◌<◌, ◌≤◌, Some, length, min, drop};
ghost use Rattle.store.specs.History.{Answered, Performed, Lawful, made_at, made_count};

use crate::call::{Answer, Call};
use crate::store::Store;

/// Makes one call.
pub fn answer<S: Store>(store: &mut S, call: &Call<'_>) -> Answer
    ensures { Answered S.semantics store.old store.new call.now result }
{
    match *call {
        Call::MakeAtom(number) => Answer::Handle(store.make_atom(number)),
        Call::MakeTuple(parts) => Answer::Handle(store.make_tuple(parts)),
        Call::MakeCrypt { text, key } => Answer::Handle(store.make_crypt(text, key)),
        Call::MakeApply { function, parts } => Answer::Handle(store.make_apply(function, parts)),
        Call::AskShape(handle) => Answer::Shape(store.shape(handle)),
        Call::AskPart { handle, index } => Answer::Handle(store.part(handle, index)),
        Call::AskUnlock { handle, key } => Answer::Handle(store.unlock(handle, key)),
        Call::AskSame { left, right } => Answer::Equal(store.same(left, right)),
        Call::AskSpace => Answer::Space(store.space()),
    }
}

/// Makes calls in order, as many as there is room for answers, and puts each answer in its place.
pub fn perform<S: Store>(store: &mut S, calls: &[Call<'_>], answers: &mut [Answer])
    ensures performed { Performed S.semantics calls.now answers.new store.old (min (length calls.now) (length answers.old)) store.new }
    ensures lawful { Lawful S.semantics calls.now answers.new store.old (min (length calls.now) (length answers.old)) store.new }
    // as many values as there was space for, since each costs something, and no handle is the greatest number
    ensures few { made_count calls.now answers.new (min (length calls.now) (length answers.old)) + S.semantics.space store.new ≤ S.semantics.space store.old }
    ensures small { (k h : ℕ) → k < min (length calls.now) (length answers.old) → made_at calls.now answers.new k ≡ Some h → h < 4294967295 }
    ensures rest { drop (min (length calls.now) (length answers.old)) answers.new ≡ drop (min (length calls.now) (length answers.old)) answers.old }
{
    for i in 0..calls.len().min(answers.len()) {
        answers[i] = answer(store, &calls[i]);
    }
}
