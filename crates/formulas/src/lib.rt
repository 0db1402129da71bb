// Formulas and commands, read from their bytes: which bytes are a command, its parts, and whether it is of the core.
// A formula is passed over as bytes by recursion with a depth that falls, and no tree of it is built.
#![tactic(auto)]

ghost use Rattle.formulas.specs.Told.{ToldRight};

pub mod command;
pub mod formula;

// What is told of any bytes is what the promise asks for: the command that they spell and its parts, or that it is not of the core,
// or that they spell none.
pub fn telling_stands() -> u8
    ensures { ToldRight }
{
    0
}
