// What holds of every engine that is made of stages. There is no code here to run: each function's contract is a theorem.
ghost use Rattle.machine.specs.View.{Replays, StaysSmall};

use crate::stages::Stages;

// The engine replays its programs: told an event, it does what is next in the program of the stage that it is in.
pub fn replays_stand<S: Stages>() -> u8
    ensures { Replays S.Stages.model }
{
    0
}

// Memory never grows, nor do its numbers, whatever is told.
pub fn steady_stands<S: Stages>() -> u8
    ensures { StaysSmall S.Stages.model }
{
    0
}
