// Questions about two equal values that were made apart. They go by turns from a table, so that no two calls in a row are one.
use crate::build::doubled;
use crate::order::{Order, Work};
use crate::stores::Anew;
use crate::tally::Tally;
use anyhow::anyhow;
use std::alloc::Global;
use store::fault::StoreFault;
use store::store::Store;

const TURNS: usize = 64;

// The one and the other by turns, and a ciphertext of an atom under the second.
#[derive(Clone, Copy)]
struct Twins {
    turns: [u32; TURNS],
    crypt: u32,
}

impl Twins {
    fn at(&self, turn: u32) -> u32 {
        self.turns[turn as usize % TURNS]
    }
}

pub(crate) fn in_rounds<S: Anew>(heap: Global, order: Order) -> anyhow::Result<Tally> {
    let mut store = S::anew(heap)?;
    let room = store.space();
    let Ok(twins) = prepare(&mut store, order.size) else {
        return Err(anyhow!("the values are too large"));
    };
    Ok(Tally {
        calls: order.rounds,
        cost: room.saturating_sub(store.space()),
        yes: ask(&store, &twins, order),
    })
}

fn prepare<S: Store>(store: &mut S, size: u32) -> Result<Twins, StoreFault> {
    let left = doubled(store, size)?;
    let right = doubled(store, size)?;
    let text = store.make_atom(8)?;
    let crypt = store.make_crypt(text, right)?;
    let mut turns = [left; TURNS];
    for i in 0..TURNS / 2 {
        turns[2 * i] = right;
    }
    Ok(Twins { turns, crypt })
}

// How many answers were a handle, or yes.
fn ask<S: Store>(store: &S, twins: &Twins, order: Order) -> u32 {
    match order.work {
        Work::Shape => shapes(store, twins, order.rounds),
        Work::Part => parts(store, twins, order.rounds),
        Work::Same => sames(store, twins, order.rounds),
        _ => unlocks(store, twins, order.rounds),
    }
}

fn shapes<S: Store>(store: &S, twins: &Twins, rounds: u32) -> u32 {
    let mut yes: u32 = 0;
    for i in 0..rounds {
        if store.shape(twins.at(i)).is_ok() {
            yes = yes.saturating_add(1);
        }
    }
    yes
}

fn parts<S: Store>(store: &S, twins: &Twins, rounds: u32) -> u32 {
    let mut yes: u32 = 0;
    for i in 0..rounds {
        if store.part(twins.at(i), 1).is_ok() {
            yes = yes.saturating_add(1);
        }
    }
    yes
}

fn sames<S: Store>(store: &S, twins: &Twins, rounds: u32) -> u32 {
    let mut yes: u32 = 0;
    for i in 0..rounds {
        if let Ok(true) = store.same(twins.at(i), twins.at(i.wrapping_add(1))) {
            yes = yes.saturating_add(1);
        }
    }
    yes
}

fn unlocks<S: Store>(store: &S, twins: &Twins, rounds: u32) -> u32 {
    let mut yes: u32 = 0;
    for i in 0..rounds {
        if store.unlock(twins.crypt, twins.at(i)).is_ok() {
            yes = yes.saturating_add(1);
        }
    }
    yes
}
