// What an engine is made of: stages, each a program over the tape that depends on registers, command and directory alone, and comes out with a move.
ghost use Rattle.std.specs.Prelude.{◌≡◌};
ghost use Rattle.lines.specs.Told.{Follows};
ghost use Rattle.machine.specs.Model.{Model};

use crate::end::End;
use lines::act::Act;
use lines::tape::Tape;

pub const REGISTER_WORDS: usize = 63;

pub const COMMAND_WORDS: usize = 136;

pub const DIRECTORY_WORDS: usize = 131072;

// How a stage comes out: with the registers of the next, something to be done to the directory, and what comes behind it.
#[derive(Clone, Copy, Debug, PartialEq, Eq)]
pub struct Move<D> {
    pub registers: [u64; REGISTER_WORDS],
    pub deed: D,
    pub end: End,
}

// What a stage sees of memory.
#[derive(Clone, Copy, Debug, PartialEq, Eq)]
pub struct View<'a> {
    pub registers: &'a [u64; REGISTER_WORDS],
    pub command: &'a [u64; COMMAND_WORDS],
    pub directory: &'a [u64; DIRECTORY_WORDS],
}

// The model says what each function is, as a program or a function on lists; the functions are held to it.
pub trait Stages {
    type Deed: Copy;

    ghost model: { Model Self.Deed };

    // The registers with which power begins.
    fn boot(lines: u64) -> [u64; REGISTER_WORDS]
        ensures { result ≡ model.boot lines };

    // A command is said.
    fn hear(
        registers: &[u64; REGISTER_WORDS],
        directory: &[u64; DIRECTORY_WORDS],
        text: &[u8],
    ) -> Move<Self::Deed>
        ensures { result ≡ model.hear registers.now directory.now text.now };

    fn stage(view: View, tape: &mut Tape) -> Result<Move<Self::Deed>, Act>
        ensures { Follows (model.stage view.entry.registers.now view.entry.command.now view.entry.directory.now) tape.old result tape.new };

    // What a move does to the directory.
    fn apply(deed: Self::Deed, directory: &mut [u64; DIRECTORY_WORDS])
        ensures { directory.new ≡ model.apply deed directory.old };
}
