// Scripts, as they are read and performed, and hires as sessions.
use crate::input::Input;
use crate::names::function_names;
use crate::plan::Plan;
use crate::rehearsal::{Scene, rehearse};
use crate::script;
use crate::session::perform_hires;
use roles::translate::translate;
use rows::rows::Rows;
use std::alloc::Global;
use std::test::Fail;
use terms::limits::Limits;

// m sends a fresh nonce n, and h answers with n under the key k that both were given
const PAIRING: &[u8] =
    b"(spec (declare (type \"m\" \"principal\") (type \"h\" \"principal\") (type-shared \"k\" \"number\") (type \"n\" \"number\") (everybody-knows \"k\")) (block (comm 1 \"m\" \"h\" \"n\") (comm 2 \"h\" \"m\" (crypt \"n\" \"k\" (vanilla)))) (sessions) (assume) (claim))";

fn pairing(heap: Global) -> Result<Plan, Fail> {
    let translation = translate(heap, PAIRING, Limits::standard())?;
    Ok(Plan::new(heap, PAIRING, translation)?)
}

// The number of the first line that cannot be read, or 0.
fn unread(heap: Global, text: &[u8]) -> Result<usize, Fail> {
    let plan = pairing(heap)?;
    match script::read(heap, &plan, PAIRING, text)? {
        Ok(_) => Ok(0),
        Err(line) => Ok(line),
    }
}

#[test]
fn a_script_stands_behind_two_dashes(rt: HostRuntime) -> Result<(), Fail> {
    let input = Input::of(b"(a)\n--\nsay m\n");
    assert_eq!(rt; input.tree, b"(a)\n".as_slice());
    assert_eq!(rt; input.script.unwrap_or(b"none"), b"say m\n".as_slice());
    let input = Input::of(b"(a --\n)");
    assert_eq!(rt; input.tree, b"(a --\n)".as_slice());
    assert!(rt; input.script.is_none());
    Ok(())
}

#[test]
fn lines_are_read(rt: HostRuntime) -> Result<(), Fail> {
    assert_eq!(rt;
        unread(rt.alloc(), b"begin m\nsay h\nhear h 1\nold m 2\n")?,
        0
    );
    assert_eq!(rt; unread(rt.alloc(), b"begin m")?, 0);
    assert_eq!(rt; unread(rt.alloc(), b"")?, 0);
    Ok(())
}

#[test]
fn a_line_that_cannot_be_read_is_named(rt: HostRuntime) -> Result<(), Fail> {
    assert_eq!(rt; unread(rt.alloc(), b"\n")?, 1);
    assert_eq!(rt; unread(rt.alloc(), b"begin m\n\nsay m\n")?, 2);
    assert_eq!(rt; unread(rt.alloc(), b"begin m\nbegin x\n")?, 2);
    assert_eq!(rt; unread(rt.alloc(), b"say m 1\n")?, 1);
    assert_eq!(rt; unread(rt.alloc(), b"hear h\n")?, 1);
    assert_eq!(rt; unread(rt.alloc(), b"hear h 0\n")?, 1);
    assert_eq!(rt; unread(rt.alloc(), b"hear h 3\n")?, 1);
    assert_eq!(rt; unread(rt.alloc(), b"old h 1 1\n")?, 1);
    assert_eq!(rt; unread(rt.alloc(), b"stop h\n")?, 1);
    Ok(())
}

// The second hire over a table of four rows: the key and two values of the first hire leave one.
const SECOND: &str = "m begins, cost 0, space 1
0 give 0: 1
h begins, cost 0, space 1
0 give 0: 1
m says line 1: 3, cost 1, space 0
1 new 1: 3
1 say 1: 3
h hears line 1: 3, cost 0, space 0
1 hear 1: 3
h says nothing, cost 0, space 0
refused 15 5 2
m hears old line 2: crypt ?, cost 0, space 0
refused 14 5 5
m says nothing, cost 0, space 0
refused 11 5 3
m hears line 2: nothing, cost 0, space 0
refused 12 5 3
";

#[test]
fn a_script_is_performed(rt: HostRuntime) -> Result<(), Fail> {
    let heap = rt.alloc();
    let plan = pairing(heap)?;
    let text = b"begin m\nbegin h\nsay m\nhear h 1\nsay h\nold m 2\nsay m\nhear m 2\n";
    let Ok(commands) = script::read(heap, &plan, PAIRING, text)? else {
        return Err(Fail::new("a line is not read"));
    };
    let functions = function_names(heap, PAIRING, plan.translation.declarations.functions())?;
    let scene = Scene {
        heap,
        text: PAIRING,
        plan: &plan,
        functions: functions.as_slice(),
    };
    let mut out = String::new(heap);
    let mut store = Rows::new(heap, 4)?;
    rehearse(scene, &mut store, commands.as_slice(), &mut out)?;
    let Some((_, second)) = out.as_str().split_once("second hire\n") else {
        return Err(Fail::new("no second hire"));
    };
    assert_eq!(rt; second, SECOND);
    Ok(())
}

// Over the same table: in the second hire there is no room for the answer, so none arrives after the old one.
const SESSIONS: &str = "as one session: 6 calls, all taken
as one session: 7 calls, refused 15 5 2 at call 5, refused 14 5 5 at call 6, refused 12 5 3 at call 7
";

#[test]
fn hires_are_performed_as_sessions(rt: HostRuntime) -> Result<(), Fail> {
    let heap = rt.alloc();
    let plan = pairing(heap)?;
    let scene = Scene {
        heap,
        text: PAIRING,
        plan: &plan,
        functions: &[],
    };
    let mut out = String::new(heap);
    let mut store = Rows::new(heap, 4)?;
    perform_hires(scene, &mut store, &mut out)?;
    assert_eq!(rt; out.as_str(), SESSIONS);
    Ok(())
}
