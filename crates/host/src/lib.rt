// The engine beside a device of lines in memory: the loop that every program runs it in, act by act, with power failures.
#![tactic(auto)]

ghost use Rattle.host.specs.Ends.{EndsToldApart};

mod acts;
mod after;
pub mod end;
pub mod machine;
mod runs;

// No two ends have the same number, so that an end says all that its number says.
#[tactic(auto, using(crate::proofs::Ends::ends_are_told_apart))]
pub fn ends_told_apart() -> u8
    ensures { EndsToldApart }
{
    0
}
