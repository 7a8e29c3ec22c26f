// Sessions: what runs of translated programs do over any list of calls, on values and over a store.
#![tactic(auto)]

ghost use Rattle.sessions.specs.PlainLaw.{PlainLaw};

mod calls;
pub mod fault;
mod makers;
mod one;
mod past;
pub mod perform;
mod questions;
pub mod reply;
pub mod request;
pub mod runs;

// Runs of an accepted specification's programs go as the model's sessions go, and are lawful.
pub fn plain_sessions_follow()
    ensures { PlainLaw }
{}
