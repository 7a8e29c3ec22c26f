// One script of calls over the row table and over the byte tape: the answers are the same, but for handles and costs. The library is empty
// but for its tests.
#![tactic(auto)]

#[cfg(test)]
mod alike;
#[cfg(test)]
mod scripts;
#[cfg(test)]
mod tests;
