// Makers. A store is filled, and then another one, until enough calls were made.
use crate::order::{Order, Work};
use crate::stores::Anew;
use crate::tally::Tally;
use std::alloc::Global;
use store::fault::StoreFault;
use store::store::Store;

pub(crate) fn in_rounds<S: Anew>(heap: Global, order: Order) -> anyhow::Result<Tally> {
    let mut tally = Tally {
        calls: 0,
        cost: 0,
        yes: 0,
    };
    // each store takes a call, or there will be no more
    for _ in 0..order.rounds {
        let left = order.rounds.saturating_sub(tally.calls);
        if left == 0 {
            break;
        }
        let mut store = S::anew(heap)?;
        let room = store.space();
        let done = fill(&mut store, order, left);
        tally.calls = tally.calls.saturating_add(done);
        tally.cost = tally
            .cost
            .saturating_add(room.saturating_sub(store.space()));
    }
    Ok(tally)
}

// Work until the store refuses, or enough calls were made: how many.
fn fill<S: Store>(store: &mut S, order: Order, left: u32) -> u32 {
    match order.work {
        Work::Atoms => atoms(store, left),
        Work::Tuples => tuples(store, left),
        _ => copies(store, order.size, left),
    }
}

fn atoms<S: Store>(store: &mut S, left: u32) -> u32 {
    for i in 0..left {
        if store.make_atom(i).is_err() {
            return i;
        }
    }
    left
}

// Pairs of 64 atoms: no two of the first 4,096 are equal.
fn tuples<S: Store>(store: &mut S, left: u32) -> u32 {
    let Ok(atoms) = sixty_four(store) else {
        return 0;
    };
    for i in 0..left {
        let pair = [atoms[(i % 64) as usize], atoms[(i / 64 % 64) as usize]];
        if store.make_tuple(&pair).is_err() {
            return i;
        }
    }
    left
}

fn sixty_four<S: Store>(store: &mut S) -> Result<[u32; 64], StoreFault> {
    let mut atoms = [0; 64];
    for i in 0..64u32 {
        atoms[i as usize] = store.make_atom(i)?;
    }
    Ok(atoms)
}

// Tuples with one value as their only part.
fn copies<S: Store>(store: &mut S, size: u32, left: u32) -> u32 {
    let Ok(value) = doubled(store, size) else {
        return 0;
    };
    for i in 0..left {
        if store.make_tuple(&[value]).is_err() {
            return i;
        }
    }
    left
}

// An atom, or a tuple of such a value twice: on the tape it has 7 * 2^size - 2 bytes.
pub(crate) fn doubled<S: Store>(store: &mut S, size: u32) -> Result<u32, StoreFault> {
    let mut value = store.make_atom(7)?;
    for _ in 0..size {
        value = store.make_tuple(&[value, value])?;
    }
    Ok(value)
}
