// No space for what a begin or a hear makes, and a line that is tried again in a larger store with the same values.
use crate::programs::{answerer, pairer, prover, run_of, starter};
use crate::refused::{empty, full, out_of_turn};
use rows::rows::Rows;
use std::alloc::Global;
use std::process::Abort;
use std::test::Fail;
use store::shape::Shape;
use store::store::Store;
use tape::tape::Tape;

// The small store has space for an atom and an application to it, the large one for more.
fn full_on<S: Store>(
    rt: &impl Abort,
    heap: Global,
    small: &mut S,
    large: &mut S,
) -> Result<(), Fail> {
    let (s_rows, p_rows, h_rows) = (starter(), prover(), answerer());
    let mut starting = run_of(heap, &s_rows)?;
    let mut proving = run_of(heap, &p_rows)?;
    let mut h = run_of(heap, &h_rows)?;
    let one = small.make_atom(1)?;
    let applied = small.make_apply(2, &[one])?;
    assert!(rt; starting.begin(small, &[one, one], &[]) == Err(full(1)));
    assert!(rt; empty(&starting, &[0, 1, 2]));
    assert!(rt; starting.say(small) == Err(out_of_turn(0)));
    proving.begin(small, &[one], &[])?;
    assert!(rt; proving.hear(small, applied) == Err(full(2)));
    assert!(rt; empty(&proving, &[1, 2]));
    h.begin(small, &[one], &[])?;
    h.hear(small, one)?;
    assert!(rt; h.say(small) == Err(full(2)));
    large.make_atom(1)?;
    large.make_apply(2, &[one])?;
    starting.begin(large, &[one, one], &[])?;
    proving.hear(large, applied)?;
    let crypt = h.say(large)?;
    assert!(rt; large.shape(crypt) == Ok(Shape::Crypt));
    Ok(())
}

#[test]
fn full_at_each_call(rt: HostRuntime) -> Result<(), Fail> {
    let heap = rt.alloc();
    full_on(
        &rt,
        heap,
        &mut Rows::new(heap, 2)?,
        &mut Rows::new(heap, 5)?,
    )?;
    // an application to an atom has 8 bytes, a ciphertext of two atoms 11
    full_on(
        &rt,
        heap,
        &mut Tape::new(heap, 5 + 8)?,
        &mut Tape::new(heap, 5 + 8 + 11 + 8 + 11)?,
    )
}

// The second line takes its number, and is refused at the pair; tried again it takes the same number. The small store has space for two
// atoms, the large one for their pair too.
fn same_number<S: Store>(
    rt: &impl Abort,
    heap: Global,
    small: &mut S,
    large: &mut S,
) -> Result<(), Fail> {
    let rows = pairer();
    let mut run = run_of(heap, &rows)?;
    run.begin(small, &[], &[7, 8])?;
    let first = run.say(small)?;
    assert!(rt; run.say(small) == Err(full(3)));
    assert!(rt; empty(&run, &[2, 3]));
    assert!(rt; small.space() == 0);
    assert!(rt; run.say(small) == Err(full(2)));
    large.make_atom(7)?;
    let pair = run.say(large)?;
    assert!(rt; run.register(1) == Some(first));
    for (index, number) in [(0, 7), (1, 8)] {
        let part = large.part(pair, index)?;
        assert!(rt; large.shape(part) == Ok(Shape::Atom(number)));
    }
    assert!(rt; large.space() == 0);
    Ok(())
}

#[test]
fn tried_again(rt: HostRuntime) -> Result<(), Fail> {
    let heap = rt.alloc();
    same_number(
        &rt,
        heap,
        &mut Rows::new(heap, 2)?,
        &mut Rows::new(heap, 3)?,
    )?;
    same_number(
        &rt,
        heap,
        &mut Tape::new(heap, 10)?,
        &mut Tape::new(heap, 22)?,
    )
}
