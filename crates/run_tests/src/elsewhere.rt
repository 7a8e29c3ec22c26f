// A run that is used on another store than it began on: each action asks that store about the handles, which are not valid there, or
// name other values. Each refusal leaves every register.
use crate::programs::{answerer, prover, run_of, sender};
use crate::refused::{BEYOND, holds, invalid};
use rows::rows::Rows;
use run::RunFault;
use std::alloc::Global;
use std::process::Abort;
use std::test::Fail;
use store::shape::Shape;
use store::store::Store;
use tape::tape::Tape;

// The key's handle is the ninth in the first store, so it is not valid in the second; the first handle names the atom 9 in the first.
fn keyed<S: Store>(first: &mut S) -> Result<u32, Fail> {
    for _ in 0..8usize {
        first.make_atom(9)?;
    }
    Ok(first.make_atom(1)?)
}

fn heard<S: Store>(
    rt: &impl Abort,
    heap: Global,
    first: &mut S,
    second: &mut S,
) -> Result<(), Fail> {
    let key = keyed(first)?;
    let rows = sender();
    let mut m = run_of(heap, &rows)?;
    assert!(rt; m.begin(second, &[key], &[7]) == Err(invalid(0)));
    m.begin(first, &[key], &[7])?;
    let said = m.say(second)?;
    assert!(rt; second.shape(said) == Ok(Shape::Atom(7)));
    let second_key = second.make_atom(1)?;
    let second_crypt = second.make_crypt(said, second_key)?;
    // the key is not valid here
    assert!(rt; m.hear(second, second_crypt) == Err(invalid(4)));
    assert!(rt; m.hear(second, BEYOND) == Err(invalid(3)));
    assert!(rt; holds(&m, &[Some(key), Some(said), None, None]));
    // and what was said is another value there
    let text = first.make_atom(7)?;
    let crypt = first.make_crypt(text, key)?;
    assert!(rt; m.hear(first, crypt) == Err(RunFault::Mismatch { place: 5 }));
    assert!(rt; holds(&m, &[Some(key), Some(said), None, None]));
    Ok(())
}

#[test]
fn hearing(rt: HostRuntime) -> Result<(), Fail> {
    let heap = rt.alloc();
    heard(
        &rt,
        heap,
        &mut Rows::new(heap, 11)?,
        &mut Rows::new(heap, 3)?,
    )?;
    // ten atoms and a ciphertext, and two atoms and a ciphertext
    heard(
        &rt,
        heap,
        &mut Tape::new(heap, 50 + 11)?,
        &mut Tape::new(heap, 10 + 11)?,
    )
}

fn built<S: Store>(
    rt: &impl Abort,
    heap: Global,
    first: &mut S,
    second: &mut S,
) -> Result<(), Fail> {
    let key = keyed(first)?;
    let (p_rows, h_rows) = (prover(), answerer());
    let mut p = run_of(heap, &p_rows)?;
    let mut h = run_of(heap, &h_rows)?;
    p.begin(first, &[key], &[])?;
    h.begin(first, &[key], &[])?;
    let one = second.make_atom(1)?;
    let space = second.space();
    assert!(rt; p.hear(second, one) == Err(invalid(2)));
    assert!(rt; holds(&p, &[Some(key), None, None]));
    // what is heard and not yet used is valid
    h.hear(second, one)?;
    assert!(rt; h.say(second) == Err(invalid(2)));
    assert!(rt; second.space() == space);
    assert!(rt; holds(&h, &[Some(key), Some(one), None]));
    // on the first store the same handle names the atom 9
    let crypt = h.say(first)?;
    let text = first.unlock(crypt, key)?;
    assert!(rt; first.shape(text) == Ok(Shape::Atom(9)));
    assert!(rt; holds(&h, &[Some(key), Some(one), Some(crypt)]));
    Ok(())
}

#[test]
fn building(rt: HostRuntime) -> Result<(), Fail> {
    let heap = rt.alloc();
    built(
        &rt,
        heap,
        &mut Rows::new(heap, 10)?,
        &mut Rows::new(heap, 3)?,
    )?;
    built(
        &rt,
        heap,
        &mut Tape::new(heap, 45 + 11)?,
        &mut Tape::new(heap, 30)?,
    )
}
