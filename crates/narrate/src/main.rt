// narrate: a tree on standard input, the programs of its roles on standard output, or one line that says why not and where.
#![tactic(auto)]

mod narration;

use crate::narration::narrate;
use std::process::ExitCode;

fn main(rt: HostRuntime) -> anyhow::Result<ExitCode> {
    if narrate(rt.alloc(), rt.stdin(), &mut rt.stdout())? {
        Ok(ExitCode::SUCCESS)
    } else {
        Ok(ExitCode::FAILURE)
    }
}
