// The machine that runs an engine's stages: one event in, one act out, with all that lasts in one lent memory.
#![tactic(auto)]

pub mod end;
pub mod laws;
mod memory;
pub mod stages;
pub mod step;
mod told;

pub use events::sizes::ROW_BYTES;
pub use events::told::Told;
