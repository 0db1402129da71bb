// Makes many commands by chance, changes some of their bytes, and has each read by the proved reader and by another one.
#![tactic(auto)]

mod changing;
mod codes;
mod dice;
mod making;
mod positions;

use codes::*;
use formulas::command::{Command, Refusal, read_command};
use making::Maker;
use positions::{At, Verdict, judge};
use std::{fmt, io};

const COMMANDS: u64 = 10000;

const SEED: u64 = 2024;

#[derive(Clone, Copy, Debug, Default, PartialEq, Eq)]
struct Tally {
    core: u64,
    other: u64,
    malformed: u64,
    differences: u64,
}

impl Tally {
    fn add(&mut self, verdict: Verdict, agreed: bool) {
        match verdict {
            Verdict::Core => self.core = self.core.wrapping_add(1),
            Verdict::Other => self.other = self.other.wrapping_add(1),
            Verdict::Malformed => self.malformed = self.malformed.wrapping_add(1),
        }
        self.differences = self.differences.wrapping_add(u64::from(!agreed));
    }
}

impl fmt::Display for Tally {
    fn fmt<W: fmt::Write>(&self, f: &mut fmt::Formatter<W>) -> fmt::Result {
        let Tally {
            core,
            other,
            malformed,
            differences,
        } = *self;
        write!(
            f,
            "{core} of the core, {other} not of the core, {malformed} malformed\ntold otherwise by another reader: {differences}"
        )
    }
}

// Whether that command and its parts stand in the bytes.
fn stands(command: Command, start: At) -> bool {
    let parts = start.after(1);
    match (start.byte(), command) {
        (Some(SET), Command::Set(place))
        | (Some(SHOW), Command::Show(place))
        | (Some(WRITTEN), Command::Written(place)) => parts.place() == Some(place),
        (Some(WIPE), Command::Wipe(area)) | (Some(ROWS), Command::Rows(area)) => {
            parts.area() == Some(area)
        }
        _ => false,
    }
}

// Whether the proved reader tells what the other one does, and which command and parts stand there.
fn agrees(bytes: &[u8], verdict: Verdict) -> bool {
    match read_command(bytes) {
        Ok(command) => verdict == Verdict::Core && stands(command, At::start(bytes)),
        Err(Refusal::Unknown) => verdict == Verdict::Other,
        Err(Refusal::Malformed) => verdict == Verdict::Malformed,
    }
}

fn run() -> Tally {
    let mut maker = Maker::new(SEED);
    let mut tally = Tally::default();
    for _ in 0..COMMANDS {
        let code = maker.mutant();
        let verdict = judge(code);
        tally.add(verdict, agrees(code, verdict));
    }
    tally
}

fn main(rt: HostRuntime) -> io::Result<()> {
    let tally = run();
    println!(rt; "{COMMANDS} commands: {tally}")
}
