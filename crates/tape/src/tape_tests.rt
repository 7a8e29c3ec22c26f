// The byte tape through the calls of a store.
use crate::tape::Tape;
use std::test::Fail;
use store::call::{Answer, Call};
use store::fault::StoreFault;
use store::history::perform;
use store::shape::Shape;
use store::store::Store;

// A tuple of the atom 7 and the empty tuple.
#[test]
fn worked_example(rt: HostRuntime) -> Result<(), Fail> {
    let mut tape = Tape::new(rt.alloc(), 32)?;
    let atom = tape.make_atom(7)?;
    let empty = tape.make_tuple(&[])?;
    let before = tape.space();
    let pair = tape.make_tuple(&[atom, empty])?;
    assert!(rt; before - tape.space() == 9);
    assert!(rt; pair == 7);
    let bytes = [1, 0, 0, 0, 7, 2, 0, 2, 2, 1, 0, 0, 0, 7, 2, 0];
    assert!(rt; tape.as_bytes() == bytes.as_slice());
    assert!(rt; tape.shape(pair) == Ok(Shape::Tuple { parts: 2 }));
    // the parts stand within the pair
    assert!(rt; tape.part(pair, 0) == Ok(9));
    assert!(rt; tape.part(pair, 1) == Ok(14));
    assert!(rt; tape.same(9, atom) == Ok(true));
    assert!(rt; tape.same(14, empty) == Ok(true));
    assert!(rt; tape.same(9, empty) == Ok(false));
    Ok(())
}

#[test]
fn values(rt: HostRuntime) -> Result<(), Fail> {
    let mut tape = Tape::new(rt.alloc(), 100)?;
    let atom = tape.make_atom(4294967295)?;
    let pair = tape.make_tuple(&[atom, atom])?;
    let crypt = tape.make_crypt(pair, atom)?;
    let apply = tape.make_apply(255, &[crypt])?;
    assert!(rt; tape.shape(atom) == Ok(Shape::Atom(4294967295)));
    assert!(rt; tape.shape(crypt) == Ok(Shape::Crypt));
    assert!(rt;
        tape.shape(apply)
            == Ok(Shape::Apply {
                function: 255,
                parts: 1
            })
    );
    // the key is an equal value of another place
    let key = tape.part(pair, 1)?;
    let inner = tape.part(apply, 0)?;
    let text = tape.unlock(inner, key)?;
    assert!(rt; tape.same(text, pair) == Ok(true));
    // a value of its own is made of a part
    let copy = tape.make_tuple(&[text])?;
    let copied = tape.part(copy, 0)?;
    assert!(rt; tape.same(copied, pair) == Ok(true));
    Ok(())
}

#[test]
fn refusals(rt: HostRuntime) -> Result<(), Fail> {
    let mut tape = Tape::new(rt.alloc(), 16)?;
    let atom = tape.make_atom(0)?;
    let crypt = tape.make_crypt(atom, atom)?;
    assert!(rt; tape.space() == 0);
    // nine parts before a handle that is not valid, and that before want of space
    assert!(rt; tape.make_tuple(&[16; 9]) == Err(StoreFault::NoPart));
    assert!(rt; tape.make_apply(0, &[16; 9]) == Err(StoreFault::NoPart));
    assert!(rt; tape.make_tuple(&[16; 8]) == Err(StoreFault::Invalid));
    assert!(rt; tape.make_apply(0, &[16; 8]) == Err(StoreFault::Invalid));
    assert!(rt; tape.make_crypt(atom, 16) == Err(StoreFault::Invalid));
    assert!(rt; tape.make_atom(0) == Err(StoreFault::Full));
    assert!(rt; tape.make_tuple(&[]) == Err(StoreFault::Full));
    assert!(rt; tape.part(16, 0) == Err(StoreFault::Invalid));
    assert!(rt; tape.part(crypt, 0) == Err(StoreFault::NoPart));
    assert!(rt; tape.part(atom, 0) == Err(StoreFault::NoPart));
    assert!(rt; tape.unlock(atom, 16) == Err(StoreFault::Invalid));
    assert!(rt; tape.unlock(16, atom) == Err(StoreFault::Invalid));
    assert!(rt; tape.unlock(atom, atom) == Err(StoreFault::Mismatch));
    assert!(rt; tape.unlock(crypt, crypt) == Err(StoreFault::Mismatch));
    assert!(rt; tape.same(atom, 16) == Err(StoreFault::Invalid));
    assert!(rt; tape.same(16, atom) == Err(StoreFault::Invalid));
    Ok(())
}

// Only where an encoding begins is a handle valid.
#[test]
fn wrong_handles(rt: HostRuntime) -> Result<(), Fail> {
    let mut tape = Tape::new(rt.alloc(), 40)?;
    // each byte of the number looks like the header of a ciphertext
    let atom = tape.make_atom(50529027)?;
    let tuple = tape.make_tuple(&[atom, atom])?;
    let apply = tape.make_apply(3, &[tuple])?;
    assert!(rt; (tuple, apply) == (5, 17));
    let valid = [0, 5, 7, 12, 17, 20, 22, 27];
    for handle in 0..40 {
        assert!(rt;
            tape.shape(handle).is_ok() == valid.contains(&handle),
            "at {handle}"
        );
    }
    assert!(rt; tape.shape(4294967295) == Err(StoreFault::Invalid));
    Ok(())
}

#[test]
fn full_to_the_last_byte(rt: HostRuntime) -> Result<(), Fail> {
    let mut tape = Tape::new(rt.alloc(), 1000000)?;
    assert!(rt; tape.space() == 65535);
    for number in 0..13107 {
        tape.make_atom(number)?;
    }
    assert!(rt; tape.space() == 0);
    assert!(rt; tape.make_tuple(&[]) == Err(StoreFault::Full));
    assert!(rt; tape.shape(65530) == Ok(Shape::Atom(13106)));
    assert!(rt; tape.shape(65535) == Err(StoreFault::Invalid));
    let mut none = Tape::new(rt.alloc(), 0)?;
    assert!(rt; none.make_tuple(&[]) == Err(StoreFault::Full));
    assert!(rt; none.shape(0) == Err(StoreFault::Invalid));
    Ok(())
}

#[test]
fn eight_parts(rt: HostRuntime) -> Result<(), Fail> {
    let mut tape = Tape::new(rt.alloc(), 100)?;
    let one = tape.make_atom(1)?;
    let two = tape.make_atom(2)?;
    let tuple = tape.make_tuple(&[one, one, one, one, one, one, one, two])?;
    let last = tape.part(tuple, 7)?;
    assert!(rt; tape.same(last, two) == Ok(true));
    assert!(rt; tape.part(tuple, 8) == Err(StoreFault::NoPart));
    assert!(rt; tape.make_tuple(&[one; 9]) == Err(StoreFault::NoPart));
    let apply = tape.make_apply(0, &[two, one, one, one, one, one, one, one])?;
    assert!(rt; tape.part(apply, 8) == Err(StoreFault::NoPart));
    assert!(rt; tape.space() == 100 - 5 - 5 - 42 - 43);
    Ok(())
}

#[test]
fn any_calls(rt: HostRuntime) -> Result<(), Fail> {
    let mut tape = Tape::new(rt.alloc(), 20)?;
    let parts = [0, 0];
    let calls = [
        Call::MakeAtom(5),
        Call::MakeTuple(&parts),
        Call::MakeCrypt { text: 7, key: 5 },
        Call::AskSame { left: 0, right: 12 },
        Call::AskSpace,
        Call::AskShape(5),
    ];
    let mut answers = [Answer::Space(9); 5];
    perform(&mut tape, &calls, &mut answers);
    assert!(rt; matches!(answers[1], Answer::Handle(Ok(5))));
    assert!(rt; matches!(answers[2], Answer::Handle(Err(StoreFault::Full))));
    assert!(rt; matches!(answers[3], Answer::Equal(Ok(true))));
    assert!(rt; matches!(answers[4], Answer::Space(3)));
    Ok(())
}
