// What the world outside tells an engine and what an engine answers: events, by the kind and bytes in which they are handed over, and acts.
// It is the same for every engine, so `sheet` and `machine` both stand on it.
#![tactic(auto)]

pub mod event;
pub mod sizes;
pub mod told;
