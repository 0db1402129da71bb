// Numbers of the sheet, what can be wrong with a value, and the entry that reckons with two numbers.
#![tactic(auto)]

pub mod millionths;
pub mod reckon;
mod sign;
pub mod wrong;
