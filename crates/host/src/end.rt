// How a command ends, and in which words that is told.
// The plain model tells ends by numbers, and each end has a number of its own.
ghost use Rattle.std.specs.Prelude.{◌≡◌, ◌<◌, ◌≤◌};

use std::fmt;

// Why a command was refused: a number from 1 to 999. It is not the `Refusal` of `machine`, since a stage there may refuse with any number but 0.
#[derive(Clone, Copy, Debug, PartialEq, Eq)]
pub struct Refusal {
    number: u64,
    ghost in_range: { (1 ≤ number) × (number < 1000) },
}

impl fmt::Display for Refusal {
    fn fmt<W: fmt::Write>(&self, f: &mut fmt::Formatter<W>) -> fmt::Result {
        // By number, as the engine refuses at its fixed entry: not all that it may tell have a word of their own.
        f.write_str(match self.number {
            1 => "not a command",
            2 => "not known yet",
            3 => "there is no such name",
            6 => "it would leave the sheet",
            7 => "there are 256 other names",
            8 => "no room",
            _ => "the engine failed",
        })
    }
}

#[derive(Clone, Copy, Debug, PartialEq, Eq)]
pub enum End {
    Done,
    Refused(Refusal),
    // The engine stored past the last line, or refused with a number that no refusal has.
    Fault,
    // The acts that were allowed were too few.
    StillRunning,
}

impl End {
    ghost use Rattle.host.specs.Ends.{end_number};
    ghost use Rattle.plain.specs.Run.{refusal_end_lem};

    // How a command ends that the engine refuses with this number.
    pub fn refused(number: u64) -> End
        ensures { end_number result ≡ refusal_end_lem number }
    {
        if (1..1000).contains(&number) {
            End::Refused(Refusal { number })
        } else {
            End::Fault
        }
    }
}

// The number by which the plain model tells the end.
impl From<End> for u64 {
    ghost use Rattle.host.specs.Ends.{end_number};

    ghost from_gives = { λ end number. number ≡ end_number end };

    fn from(end: End) -> u64 {
        match end {
            End::Done => 0,
            End::Refused(why) => why.number,
            End::StillRunning => 1000,
            End::Fault => 1001,
        }
    }
}

impl fmt::Display for End {
    fn fmt<W: fmt::Write>(&self, f: &mut fmt::Formatter<W>) -> fmt::Result {
        let number = u64::from(*self);
        match self {
            End::Done => f.write_str("done"),
            End::Refused(why) => write!(f, "refused {number}: {why}"),
            End::Fault | End::StillRunning => write!(f, "refused {number}: the engine failed"),
        }
    }
}
