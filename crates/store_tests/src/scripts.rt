// The parts of the script. Each takes its handles from the answers before.
use crate::alike::handle;
use store::call::{Answer, Call};
use store::history::perform;
use store::store::Store;

// beyond the small stores of these tests
const BEYOND: u32 = 1000;

// The atoms 1 and 2, and 1 again.
pub(crate) fn atoms<S: Store>(store: &mut S) -> [Answer; 4] {
    let calls = [
        Call::MakeAtom(1),
        Call::MakeAtom(2),
        Call::MakeAtom(1),
        Call::AskSpace,
    ];
    let mut answers = [Answer::Space(0); 4];
    perform(store, &calls, &mut answers);
    answers
}

// Two equal pairs, a ciphertext, an application, the tuple of nothing, and one of eight parts.
pub(crate) fn compounds<S: Store>(store: &mut S, atoms: &[Answer; 4]) -> [Answer; 6] {
    let (one, two, again) = (handle(atoms[0]), handle(atoms[1]), handle(atoms[2]));
    let (pair, other, eight) = ([one, two], [again, two], [one; 8]);
    let calls = [
        Call::MakeTuple(&pair),
        Call::MakeTuple(&other),
        Call::MakeCrypt {
            text: one,
            key: two,
        },
        Call::MakeApply {
            function: 3,
            parts: &pair,
        },
        Call::MakeTuple(&[]),
        Call::MakeTuple(&eight),
    ];
    let mut answers = [Answer::Space(0); 6];
    perform(store, &calls, &mut answers);
    answers
}

pub(crate) fn shapes<S: Store>(
    store: &mut S,
    atoms: &[Answer; 4],
    compounds: &[Answer; 6],
) -> [Answer; 7] {
    let calls = [
        Call::AskShape(handle(atoms[1])),
        Call::AskShape(handle(compounds[0])),
        Call::AskShape(handle(compounds[2])),
        Call::AskShape(handle(compounds[3])),
        Call::AskShape(handle(compounds[4])),
        Call::AskShape(handle(compounds[5])),
        Call::AskShape(BEYOND),
    ];
    let mut answers = [Answer::Space(0); 7];
    perform(store, &calls, &mut answers);
    answers
}

// Parts of a tuple and of an application, and the text of the ciphertext.
pub(crate) fn parts<S: Store>(
    store: &mut S,
    atoms: &[Answer; 4],
    compounds: &[Answer; 6],
) -> [Answer; 4] {
    let calls = [
        Call::AskPart {
            handle: handle(compounds[0]),
            index: 1,
        },
        Call::AskPart {
            handle: handle(compounds[3]),
            index: 0,
        },
        Call::AskPart {
            handle: handle(compounds[5]),
            index: 7,
        },
        Call::AskUnlock {
            handle: handle(compounds[2]),
            key: handle(atoms[1]),
        },
    ];
    let mut answers = [Answer::Space(0); 4];
    perform(store, &calls, &mut answers);
    answers
}

fn same(left: Answer, right: Answer) -> Call<'static> {
    Call::AskSame {
        left: handle(left),
        right: handle(right),
    }
}

// What was found is compared with what was put there; then values of other kinds.
pub(crate) fn comparisons<S: Store>(
    store: &mut S,
    atoms: &[Answer; 4],
    compounds: &[Answer; 6],
    parts: &[Answer; 4],
) -> [Answer; 9] {
    let calls = [
        same(parts[0], atoms[1]),
        same(parts[1], atoms[2]),
        same(parts[2], atoms[0]),
        same(parts[3], atoms[0]),
        same(compounds[0], compounds[1]),
        same(atoms[0], atoms[1]),
        same(compounds[0], compounds[3]),
        same(compounds[2], compounds[0]),
        same(compounds[4], compounds[5]),
    ];
    let mut answers = [Answer::Space(0); 9];
    perform(store, &calls, &mut answers);
    answers
}

// Makers of nine parts, valid or not.
pub(crate) fn makers_of_nine<S: Store>(store: &mut S, atoms: &[Answer; 4]) -> [Answer; 2] {
    let (valid, beyond) = ([handle(atoms[0]); 9], [BEYOND; 9]);
    let calls = [
        Call::MakeTuple(&valid),
        Call::MakeApply {
            function: 0,
            parts: &beyond,
        },
    ];
    let mut answers = [Answer::Space(0); 2];
    perform(store, &calls, &mut answers);
    answers
}

// Makers: a handle that is not valid, and then want of space.
pub(crate) fn refused_makers<S: Store>(store: &mut S, atoms: &[Answer; 4]) -> [Answer; 6] {
    let one = handle(atoms[0]);
    let wrong = [one, BEYOND];
    let calls = [
        Call::MakeTuple(&wrong),
        Call::MakeApply {
            function: 0,
            parts: &wrong,
        },
        Call::MakeCrypt {
            text: one,
            key: BEYOND,
        },
        Call::MakeAtom(1),
        Call::MakeTuple(&[]),
        Call::MakeCrypt {
            text: one,
            key: one,
        },
    ];
    let mut answers = [Answer::Space(0); 6];
    perform(store, &calls, &mut answers);
    answers
}

fn part(of: u32, index: usize) -> Call<'static> {
    Call::AskPart { handle: of, index }
}

fn unlock(of: u32, key: u32) -> Call<'static> {
    Call::AskUnlock { handle: of, key }
}

// Questions: a handle that is not valid, no such part, another key, and no ciphertext.
pub(crate) fn refused_questions<S: Store>(
    store: &mut S,
    atoms: &[Answer; 4],
    compounds: &[Answer; 6],
) -> [Answer; 8] {
    let (one, pair, crypt) = (handle(atoms[0]), handle(compounds[0]), handle(compounds[2]));
    let calls = [
        part(BEYOND, 0),
        unlock(crypt, BEYOND),
        unlock(BEYOND, one),
        part(pair, 2),
        part(one, 0),
        part(crypt, 0),
        unlock(crypt, one),
        unlock(pair, one),
    ];
    let mut answers = [Answer::Space(0); 8];
    perform(store, &calls, &mut answers);
    answers
}
