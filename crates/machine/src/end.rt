// How a command goes on behind a stage, or ends.
ghost use Rattle.std.specs.Prelude.{◌<◌};

// Why a command is refused: a number that is not 0.
#[derive(Clone, Copy, Debug, PartialEq, Eq)]
pub struct Refusal {
    pub number: u64,
    ghost some: { 0 < number },
}

// What comes behind a stage: another one, or the end of the command. The names say more than an `Option<Result<(), Refusal>>` would.
#[derive(Clone, Copy, Debug, PartialEq, Eq)]
pub enum End {
    Go,
    Done,
    Refused(Refusal),
}
