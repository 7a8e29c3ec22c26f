// The calls of a store as values, and what they answer.
use crate::fault::StoreFault;
use crate::shape::Shape;

/// A call of a store.
#[derive(Clone, Copy)]
pub enum Call<'a> {
    MakeAtom(u32),
    MakeTuple(&'a [u32]),
    MakeCrypt { text: u32, key: u32 },
    MakeApply { function: u8, parts: &'a [u32] },
    AskShape(u32),
    AskPart { handle: u32, index: usize },
    AskUnlock { handle: u32, key: u32 },
    AskSame { left: u32, right: u32 },
    AskSpace,
}

/// What a call of a store answers.
#[derive(Clone, Copy)]
pub enum Answer {
    /// of a maker, and of a question for a part or a text
    Handle(Result<u32, StoreFault>),
    /// of a question for a shape
    Shape(Result<Shape, StoreFault>),
    /// of a question whether values are equal
    Equal(Result<bool, StoreFault>),
    /// of a question for the space
    Space(usize),
}
