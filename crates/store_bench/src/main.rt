// store_bench: does work on a store, as a line of standard input asks, and says how many calls it made. bench/stores times it.
#![tactic(auto)]

mod ask;
mod build;
mod order;
mod stores;
mod tally;

use anyhow::anyhow;
use order::{Order, StoreKind};
use rows::rows::Rows;
use std::alloc::Global;
use stores::Anew;
use tally::Tally;
use tape::tape::Tape;

fn main(rt: HostRuntime) -> anyhow::Result<()> {
    for line in rt.lines(rt.alloc()) {
        let line = line?;
        let Some(order) = Order::read(line.as_str()) else {
            return Err(anyhow!("no STORE WORK SIZE ROUNDS"));
        };
        let tally = perform(rt.alloc(), order)?;
        println!(rt; "{tally}")?;
    }
    Ok(())
}

fn perform(heap: Global, order: Order) -> anyhow::Result<Tally> {
    match order.store {
        StoreKind::Rows => work::<Rows>(heap, order),
        StoreKind::Tape => work::<Tape>(heap, order),
    }
}

fn work<S: Anew>(heap: Global, order: Order) -> anyhow::Result<Tally> {
    if order.work.makes() {
        build::in_rounds::<S>(heap, order)
    } else {
        ask::in_rounds::<S>(heap, order)
    }
}
