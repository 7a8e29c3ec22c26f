// The two hires as sessions: each is one list of requests, performed over one new store.
use crate::command::Command;
use crate::given::{NOTHING, Numbers, build, given_to};
use crate::rehearsal::Scene;
use anyhow::anyhow;
use sessions::perform::perform;
use sessions::reply::Reply;
use sessions::request::{Handle, Request};
use std::alloc::{AllocError, Global};
use std::fmt;
use std::fmt::Write;
use store::store::Store;
use terms::limits::Limits;

// What the requests of a hire are made of.
#[derive(Clone, Copy)]
struct Source<'a> {
    scene: Scene<'a>,
    // of what roles start from, by the term's number
    given: &'a [u32],
    // of each line of the hire before
    old: &'a [u32],
}

// The honest hire, and then the one in which an old value arrives. Each prints one line.
pub(crate) fn perform_hires<S: Store>(
    scene: Scene<'_>,
    store: &mut S,
    out: &mut String,
) -> anyhow::Result<()> {
    let heap = scene.heap;
    let mut numbers = Numbers { next: 1 };
    let given = build(
        heap,
        &scene.plan.translation.declarations,
        store,
        &mut numbers,
    )?;
    let first = Source {
        scene,
        given: given.as_slice(),
        old: &[],
    };
    let honest = scene.plan.honest(heap)?;
    let said = perform_hire(first, store, honest.as_slice(), &mut numbers, out)?;
    let second = Source {
        scene,
        given: given.as_slice(),
        old: said.as_slice(),
    };
    let replayed = scene.plan.replayed(heap)?;
    perform_hire(second, store, replayed.as_slice(), &mut numbers, out)?;
    Ok(())
}

// One hire, in which each line is said once, in order. It answers the value of each line.
fn perform_hire<S: Store>(
    source: Source<'_>,
    store: &mut S,
    commands: &[Command],
    numbers: &mut Numbers,
    out: &mut String,
) -> anyhow::Result<Vec<u32>> {
    let scene = source.scene;
    let says = places_of_says(scene.heap, commands)?;
    let mut requests = Vec::new(scene.heap);
    for command in commands {
        requests.push(request_of(source, says.as_slice(), *command, numbers)?)?;
    }
    let limits = Limits::standard();
    let Ok(replies) = perform(scene.heap, store, scene.text, limits, requests.as_slice()) else {
        return Err(anyhow!("out of memory"));
    };
    print_replies(out, replies.as_slice())?;
    let mut said = Vec::new(scene.heap);
    for place in &says {
        said.push(handle_at(replies.as_slice(), *place))?;
    }
    Ok(said)
}

// The places of the requests that say a line.
fn places_of_says(heap: Global, commands: &[Command]) -> Result<Vec<usize>, AllocError> {
    let mut places = Vec::new(heap);
    for (place, command) in commands.iter().enumerate() {
        if let Command::Say { .. } = command {
            places.push(place)?;
        }
    }
    Ok(places)
}

// A command as a request. What a line says is told by the place of the request that says it; an old value by its handle.
fn request_of(
    source: Source<'_>,
    says: &[usize],
    command: Command,
    numbers: &mut Numbers,
) -> Result<Request, AllocError> {
    Ok(match command {
        Command::Begin { role } => begin(source, role, numbers)?,
        Command::Say { role } => Request::Say { role },
        Command::Hear { role, line } => Request::Hear {
            role,
            handle: match says.get(line) {
                Some(place) => Handle::Answer(*place),
                None => Handle::Number(NOTHING),
            },
        },
        Command::Old { role, line } => Request::Hear {
            role,
            handle: Handle::Number(source.old.get(line).copied().unwrap_or(NOTHING)),
        },
    })
}

// A role begins with what it is given and new numbers for what it makes.
fn begin(source: Source<'_>, place: usize, numbers: &mut Numbers) -> Result<Request, AllocError> {
    let heap = source.scene.heap;
    let translation = &source.scene.plan.translation;
    let mut given = Vec::new(heap);
    let mut atoms = Vec::new(heap);
    if let Some(role) = translation.roles.get(place) {
        for handle in &given_to(heap, &translation.declarations, role.name, source.given)? {
            given.push(Handle::Number(*handle))?;
        }
        atoms = numbers.for_rows(heap, &role.rows)?;
    }
    Ok(Request::Begin {
        role: place,
        given,
        numbers: atoms,
    })
}

// The handle that a request was answered.
fn handle_at(replies: &[Reply], place: usize) -> u32 {
    match replies.get(place) {
        Some(Reply::Handle(handle)) => *handle,
        _ => NOTHING,
    }
}

// How many requests there were, and which of them were refused, counted from 1.
fn print_replies(out: &mut String, replies: &[Reply]) -> fmt::Result {
    write!(out, "as one session: {} calls", replies.len())?;
    if replies.iter().all(|reply| is_taken(*reply)) {
        out.write_str(", all taken")?;
    }
    for (index, reply) in replies.iter().enumerate() {
        print_refusal(out, *reply, index.saturating_add(1))?;
    }
    out.write_str("\n")?;
    Ok(())
}

fn is_taken(reply: Reply) -> bool {
    matches!(reply, Reply::Done | Reply::Handle(_))
}

// Begin, say and hear are refused by a run, or because there is no such role.
fn print_refusal(out: &mut String, reply: Reply, number: usize) -> fmt::Result {
    match reply {
        Reply::Run(fault) => {
            let refusal = fault.refusal();
            write!(out, ", {refusal} at call {number}")?
        }
        Reply::NoRole => write!(out, ", no role at call {number}")?,
        _ => {}
    }
    Ok(())
}
