// What stages are written in: lines of eight words, acts on them, and the tape of answers against which a stage is run again.
#![tactic(auto)]

pub mod act;
pub mod line;
pub mod row;
pub mod tape;
