// The parts that commands and formulas are spelled with, each read from the front of a slice: what was read, and what is behind it.
// A reader refuses with None, and only where no spelling of its part stands at the front.
#![tactic(auto)]

pub mod bytes;
pub mod constant;
pub mod kinds;
pub mod limits;
pub mod name;
pub mod place;
