// A device of lines in memory, with a cache and power failures: what the engine is run on in tests, in scripts and in the console.
#![tactic(auto)]

mod acts;
pub mod memory;
pub mod store;
