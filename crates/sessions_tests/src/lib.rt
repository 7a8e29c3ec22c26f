// Sessions over a small row table and over a short byte tape: honest ones, old and swapped lines, and what each kind of request is
// replied. The library is empty but for its tests. Each is one function over any store; what differs, such as costs, is passed to it.
#![tactic(auto)]

#[cfg(test)]
mod ask;
#[cfg(test)]
mod begins;
#[cfg(test)]
mod full;
#[cfg(test)]
mod honest;
#[cfg(test)]
mod lent;
#[cfg(test)]
mod lines;
#[cfg(test)]
mod misheard;
#[cfg(test)]
mod questions;
#[cfg(test)]
mod texts;
#[cfg(test)]
mod turns;
#[cfg(test)]
mod unfit;
