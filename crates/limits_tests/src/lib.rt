// Limits that a caller lowers, what a refusal of an underivable message carries, what is declared of functions,
// and copies and clones of what a text says. The library is empty but for its tests.
#![tactic(auto)]

#[cfg(test)]
mod clones;
#[cfg(test)]
mod functions;
#[cfg(test)]
mod tests;
