// When two answers are the same, but for handles and costs.
use std::process::Abort;
use store::call::Answer;
use store::fault::StoreFault;
use store::shape::Shape;

fn alike(left: Answer, right: Answer) -> bool {
    match left {
        Answer::Handle(Ok(_)) => matches!(right, Answer::Handle(Ok(_))),
        Answer::Handle(Err(fault)) => match right {
            Answer::Handle(Err(other)) => fault == other,
            _ => false,
        },
        Answer::Shape(shape) => match right {
            Answer::Shape(other) => shape == other,
            _ => false,
        },
        Answer::Equal(equal) => match right {
            Answer::Equal(other) => equal == other,
            _ => false,
        },
        Answer::Space(_) => matches!(right, Answer::Space(_)),
    }
}

// The answers of a script are those that are expected.
pub(crate) fn expect_all(rt: &impl Abort, answers: &[Answer], expected: &[Answer]) {
    assert!(rt; answers.len() == expected.len());
    for (i, answer) in answers.iter().enumerate() {
        let same = match expected.get(i) {
            Some(other) => alike(*answer, *other),
            None => false,
        };
        assert!(rt; same, "at {i}");
    }
}

// The handle that a call answered, or one that is never valid.
pub(crate) fn handle(answer: Answer) -> u32 {
    match answer {
        Answer::Handle(Ok(handle)) => handle,
        _ => 4294967295,
    }
}

// What is expected: some handle, or a refusal of one.
pub(crate) const MADE: Answer = Answer::Handle(Ok(0));

pub(crate) const INVALID: Answer = Answer::Handle(Err(StoreFault::Invalid));

pub(crate) const NO_PART: Answer = Answer::Handle(Err(StoreFault::NoPart));

pub(crate) const LOCKED: Answer = Answer::Handle(Err(StoreFault::Mismatch));

pub(crate) const FULL: Answer = Answer::Handle(Err(StoreFault::Full));

pub(crate) const EQUAL: Answer = Answer::Equal(Ok(true));

pub(crate) const DIFFERENT: Answer = Answer::Equal(Ok(false));

pub(crate) fn is(shape: Shape) -> Answer {
    Answer::Shape(Ok(shape))
}
