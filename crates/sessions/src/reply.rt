// What a request is answered.
use run::fault::RunFault;
use store::fault::StoreFault;
use store::shape::Shape;

#[derive(Clone, Copy, PartialEq, Eq, Debug)]
pub enum Reply {
    // a begin or a hear was taken
    Done,
    // the handle that was said, made, found or looked up
    Handle(u32),
    // the register holds nothing
    Empty,
    Shape(Shape),
    Same(bool),
    Space(usize),
    // a refusal of a run, or of the store
    Run(RunFault),
    Store(StoreFault),
    // there is no such role
    NoRole,
}
