// Marks of numbers, and rows that can be held or not.
use crate::action::{Action, Row};
use crate::held::Program;
use crate::marks::Marks;
use crate::take_up::ProgramFault;
use std::test::Fail;

#[test]
fn marks(rt: HostRuntime) -> Result<(), Fail> {
    let mut marks = Marks::new(rt.alloc(), 3)?;
    assert!(rt; !marks.has(1));
    marks.mark(1);
    assert!(rt; marks.has(1));
    assert!(rt; !marks.has(2));
    assert!(rt; marks.has_all(&[1, 1]));
    assert!(rt; !marks.has_all(&[1, 2]));
    // past the count
    marks.mark(3);
    assert!(rt; !marks.has(3));
    Ok(())
}

#[test]
fn held(rt: HostRuntime) -> Result<(), Fail> {
    let give = Row {
        line: 0,
        action: Action::Give { target: 0 },
    };
    let say = Row {
        line: 1,
        action: Action::Say { source: 0 },
    };
    let rows = [give, say];
    let program = Program::from_rows(rt.alloc(), &rows, &[])?;
    assert!(rt; program.rows().len() == 2);
    let unfilled = [say];
    let refused = Program::from_rows(rt.alloc(), &unfilled, &[]);
    assert!(rt; matches!(refused, Err(ProgramFault::Unsound)));
    Ok(())
}
