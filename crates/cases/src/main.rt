// cases: the translator on every tree of a list, a line for each with what came of it.
#![tactic(auto)]

use anyhow::anyhow;
use base::Refusal;
use roles::answer::Answer;
use std::{fmt, fs};
use terms::limits::Limits;

fn main(rt: HostRuntime) -> anyhow::Result<()> {
    run(&rt)
}

#[derive(Clone, Copy)]
enum Outcome {
    // the programs are those expected
    Accepted,
    // programs came, and they are not those expected, or none were
    Differs,
    Refused(Refusal),
}

impl fmt::Display for Outcome {
    fn fmt<W: fmt::Write>(&self, f: &mut fmt::Formatter<W>) -> fmt::Result {
        match self {
            Outcome::Accepted => f.write_str("accepted"),
            Outcome::Differs => f.write_str("differs"),
            Outcome::Refused(refusal) => refusal.fmt(f),
        }
    }
}

// Each line of the list begins with a case's name; the expected outcome behind it is for the reader.
fn run(rt: &HostRuntime) -> anyhow::Result<()> {
    let list = fs::read_to_string(rt, "cases.txt")?;
    for line in list.lines() {
        let Some((name, _)) = line.split_once(' ') else {
            return Err(anyhow!("a line of the list has no outcome"));
        };
        let outcome = try_case(rt, name)?;
        println!(rt; "{name}: {outcome}")?;
    }
    Ok(())
}

fn try_case(rt: &HostRuntime, name: &str) -> anyhow::Result<Outcome> {
    let text = fs::read(rt, format!(in rt.alloc(); "{name}.evl")?)?;
    let Ok(answer) = Answer::to(rt.alloc(), &text, Limits::standard()) else {
        return Err(anyhow!("out of memory"));
    };
    match answer.refusal {
        Some(refusal) => Ok(Outcome::Refused(refusal)),
        None => compare(rt, name, &answer),
    }
}

// Byte for byte. Where a refusal is expected, its line is in the file, and no program looks like it.
fn compare(rt: &HostRuntime, name: &str, answer: &Answer) -> anyhow::Result<Outcome> {
    let expected = fs::read(rt, format!(in rt.alloc(); "{name}.out")?)?;
    if answer.text.as_bytes() == expected.as_slice() {
        Ok(Outcome::Accepted)
    } else {
        Ok(Outcome::Differs)
    }
}
