// The row table through the calls of a store.
use crate::rows::Rows;
use std::test::Fail;
use store::call::{Answer, Call};
use store::fault::StoreFault;
use store::history::perform;
use store::shape::Shape;
use store::store::Store;

#[test]
fn values(rt: HostRuntime) -> Result<(), Fail> {
    let mut rows = Rows::new(rt.alloc(), 10)?;
    let seven = rows.make_atom(7)?;
    let again = rows.make_atom(7)?;
    let pair = rows.make_tuple(&[seven, again])?;
    let crypt = rows.make_crypt(pair, seven)?;
    let apply = rows.make_apply(3, &[crypt])?;
    assert!(rt; again != seven);
    assert!(rt; rows.same(seven, again) == Ok(true));
    assert!(rt; rows.same(seven, pair) == Ok(false));
    assert!(rt; rows.shape(seven) == Ok(Shape::Atom(7)));
    assert!(rt; rows.shape(pair) == Ok(Shape::Tuple { parts: 2 }));
    assert!(rt; rows.shape(crypt) == Ok(Shape::Crypt));
    assert!(rt;
        rows.shape(apply)
            == Ok(Shape::Apply {
                function: 3,
                parts: 1
            })
    );
    let text = rows.unlock(crypt, again)?;
    assert!(rt; rows.same(text, pair) == Ok(true));
    let part = rows.part(apply, 0)?;
    assert!(rt; rows.same(part, crypt) == Ok(true));
    assert!(rt; rows.space() == 5);
    Ok(())
}

#[test]
fn refusals(rt: HostRuntime) -> Result<(), Fail> {
    let mut rows = Rows::new(rt.alloc(), 4)?;
    let atom = rows.make_atom(0)?;
    let crypt = rows.make_crypt(atom, atom)?;
    // nine parts, valid or not, then a handle that is not valid
    assert!(rt; rows.make_tuple(&[9; 9]) == Err(StoreFault::NoPart));
    assert!(rt; rows.make_apply(0, &[9; 8]) == Err(StoreFault::Invalid));
    assert!(rt; rows.make_crypt(atom, 2) == Err(StoreFault::Invalid));
    assert!(rt; rows.shape(2) == Err(StoreFault::Invalid));
    assert!(rt; rows.part(2, 0) == Err(StoreFault::Invalid));
    assert!(rt; rows.part(crypt, 0) == Err(StoreFault::NoPart));
    assert!(rt; rows.part(atom, 0) == Err(StoreFault::NoPart));
    assert!(rt; rows.unlock(2, 3) == Err(StoreFault::Invalid));
    assert!(rt; rows.unlock(atom, 4294967295) == Err(StoreFault::Invalid));
    assert!(rt; rows.unlock(atom, atom) == Err(StoreFault::Mismatch));
    assert!(rt; rows.unlock(crypt, crypt) == Err(StoreFault::Mismatch));
    assert!(rt; rows.same(atom, 2) == Err(StoreFault::Invalid));
    Ok(())
}

#[test]
fn full(rt: HostRuntime) -> Result<(), Fail> {
    let mut rows = Rows::new(rt.alloc(), 5000)?;
    assert!(rt; rows.space() == 4096);
    let first = rows.make_atom(0)?;
    for number in 1..4096 {
        rows.make_atom(number)?;
    }
    assert!(rt; rows.space() == 0);
    assert!(rt; rows.make_tuple(&[first; 9]) == Err(StoreFault::NoPart));
    assert!(rt; rows.make_tuple(&[4096; 8]) == Err(StoreFault::Invalid));
    assert!(rt; rows.make_tuple(&[first; 8]) == Err(StoreFault::Full));
    let mut none = Rows::new(rt.alloc(), 0)?;
    assert!(rt; none.make_atom(0) == Err(StoreFault::Full));
    Ok(())
}

// A chain of so many rows over an atom: each is a tuple of the row before it twice.
fn twins(rows: &mut Rows, atom: u32, count: usize) -> Result<u32, StoreFault> {
    let mut last = rows.make_atom(atom)?;
    for _ in 1..count {
        last = rows.make_tuple(&[last, last])?;
    }
    Ok(last)
}

#[test]
fn twin_chains(rt: HostRuntime) -> Result<(), Fail> {
    let mut rows = Rows::new(rt.alloc(), 4096)?;
    let left = twins(&mut rows, 1, 2000)?;
    let right = twins(&mut rows, 1, 2000)?;
    assert!(rt; left != right);
    assert!(rt; rows.same(left, right) == Ok(true));
    let longer = rows.make_tuple(&[left, right])?;
    assert!(rt; rows.same(longer, right) == Ok(false));
    let crypt = rows.make_crypt(longer, left)?;
    let text = rows.unlock(crypt, right)?;
    assert!(rt; rows.same(text, longer) == Ok(true));
    assert!(rt; rows.unlock(crypt, longer) == Err(StoreFault::Mismatch));
    Ok(())
}

// They differ only at the bottom.
#[test]
fn twin_chains_over_other_atoms(rt: HostRuntime) -> Result<(), Fail> {
    let mut rows = Rows::new(rt.alloc(), 4096)?;
    let left = twins(&mut rows, 1, 2000)?;
    let right = twins(&mut rows, 2, 2000)?;
    assert!(rt; rows.same(left, right) == Ok(false));
    let crypt = rows.make_crypt(left, left)?;
    assert!(rt; rows.unlock(crypt, right) == Err(StoreFault::Mismatch));
    Ok(())
}

// The longest chain: its last row against the one before it.
#[test]
fn chain_against_itself(rt: HostRuntime) -> Result<(), Fail> {
    let mut rows = Rows::new(rt.alloc(), 4096)?;
    let last = twins(&mut rows, 1, 4096)?;
    assert!(rt; rows.space() == 0);
    let before = rows.part(last, 1)?;
    assert!(rt; rows.same(last, before) == Ok(false));
    assert!(rt; rows.same(last, last) == Ok(true));
    Ok(())
}

#[test]
fn differing_values(rt: HostRuntime) -> Result<(), Fail> {
    let mut rows = Rows::new(rt.alloc(), 20)?;
    let one = rows.make_atom(1)?;
    let two = rows.make_atom(2)?;
    let pair = rows.make_tuple(&[one, two])?;
    let crypt = rows.make_crypt(one, two)?;
    let apply = rows.make_apply(0, &[one, two])?;
    let other = rows.make_apply(1, &[one, two])?;
    let empty = rows.make_tuple(&[])?;
    let longer = rows.make_tuple(&[one, two, two])?;
    let last = rows.make_tuple(&[one, one])?;
    let zero = rows.make_atom(0)?;
    for value in [crypt, apply, other, empty, longer, last, one, zero] {
        assert!(rt; rows.same(pair, value) == Ok(false));
    }
    assert!(rt; rows.same(apply, other) == Ok(false));
    assert!(rt; rows.same(empty, zero) == Ok(false));
    Ok(())
}

#[test]
fn eight_parts(rt: HostRuntime) -> Result<(), Fail> {
    let mut rows = Rows::new(rt.alloc(), 8)?;
    let one = rows.make_atom(1)?;
    let two = rows.make_atom(2)?;
    let tuple = rows.make_tuple(&[one, one, one, one, one, one, one, two])?;
    let last = rows.part(tuple, 7)?;
    assert!(rt; rows.same(last, two) == Ok(true));
    assert!(rt; rows.part(tuple, 8) == Err(StoreFault::NoPart));
    let empty = rows.make_tuple(&[])?;
    assert!(rt; rows.part(empty, 0) == Err(StoreFault::NoPart));
    Ok(())
}

#[test]
fn any_calls(rt: HostRuntime) -> Result<(), Fail> {
    let mut rows = Rows::new(rt.alloc(), 2)?;
    let parts = [0, 0];
    let calls = [
        Call::MakeAtom(5),
        Call::MakeTuple(&parts),
        Call::MakeCrypt { text: 0, key: 1 },
        Call::AskSame { left: 0, right: 1 },
        Call::AskSpace,
        Call::AskShape(1),
    ];
    let mut answers = [Answer::Space(9); 5];
    perform(&mut rows, &calls, &mut answers);
    assert!(rt; matches!(answers[1], Answer::Handle(Ok(1))));
    assert!(rt; matches!(answers[2], Answer::Handle(Err(StoreFault::Full))));
    assert!(rt; matches!(answers[3], Answer::Equal(Ok(false))));
    assert!(rt; matches!(answers[4], Answer::Space(0)));
    Ok(())
}
