// The journal as code: a batch of line writes is logged, committed, applied and cleared, so that it happens wholly or not at all.
#![tactic(auto)]

pub mod journaling;
pub mod steps;
