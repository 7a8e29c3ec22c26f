// Runs over a small row table and over a short byte tape: honest lines, and each refusal of each call. The library is empty but for its
// tests. Each is one function over any store; what differs, such as costs, is passed to it.
#![tactic(auto)]

#[cfg(test)]
mod begins;
#[cfg(test)]
mod elsewhere;
#[cfg(test)]
mod faults;
#[cfg(test)]
mod full;
#[cfg(test)]
mod honest;
#[cfg(test)]
mod lines;
#[cfg(test)]
mod makers;
#[cfg(test)]
mod misheard;
#[cfg(test)]
mod programs;
#[cfg(test)]
mod refused;
#[cfg(test)]
mod turns;
#[cfg(test)]
mod unfit;
