// A ciphertext is due, and something else arrives: 12 for a handle that is not valid, 14 for another kind, key or text.
use crate::programs::{run_of, sender};
use crate::refused::{BEYOND, GREATEST, empty, invalid, locked, out_of_turn};
use rows::rows::Rows;
use run::RunFault;
use std::alloc::Global;
use std::process::Abort;
use std::test::Fail;
use store::store::Store;
use tape::tape::Tape;

// `wrong` is a small number that is no handle here.
fn misheard_on<S: Store>(
    rt: &impl Abort,
    heap: Global,
    store: &mut S,
    wrong: u32,
) -> Result<(), Fail> {
    let rows = sender();
    let mut m = run_of(heap, &rows)?;
    let key = store.make_atom(1)?;
    let other = store.make_atom(2)?;
    m.begin(store, &[key], &[7])?;
    let new = m.say(store)?;
    for handle in [wrong, BEYOND, GREATEST] {
        assert!(rt; m.hear(store, handle) == Err(invalid(3)));
    }
    // other kinds, another key, and text and key swapped
    let pair = store.make_tuple(&[new, key])?;
    let applied = store.make_apply(2, &[new])?;
    let other_key = store.make_crypt(new, other)?;
    let swapped = store.make_crypt(key, new)?;
    for handle in [new, pair, applied, other_key, swapped] {
        assert!(rt; m.hear(store, handle) == Err(locked(4)));
    }
    // the text is compared with what was said
    let other_text = store.make_crypt(other, key)?;
    assert!(rt; m.hear(store, other_text) == Err(RunFault::Mismatch { place: 5 }));
    assert!(rt; empty(&m, &[2, 3]));
    assert!(rt; m.say(store) == Err(out_of_turn(3)));
    // a text that is equal, by other handles
    let same_text = store.make_atom(7)?;
    let crypt = store.make_crypt(same_text, key)?;
    m.hear(store, crypt)?;
    assert!(rt; m.register(2) == Some(crypt));
    Ok(())
}

#[test]
fn misheard(rt: HostRuntime) -> Result<(), Fail> {
    let heap = rt.alloc();
    misheard_on(&rt, heap, &mut Rows::new(heap, 20)?, 10)?;
    // a byte within the key's number
    misheard_on(&rt, heap, &mut Tape::new(heap, 200)?, 1)?;
    assert!(rt; locked(4).number() == 14);
    assert!(rt; RunFault::Mismatch { place: 5 }.number() == 14);
    Ok(())
}
