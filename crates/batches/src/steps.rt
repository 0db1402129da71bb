// The steps of a batch: each line is stored and settled at once, so that the next step finds it there whatever stops.
ghost use Rattle.std.specs.Prelude.{◌≡◌, ◌+◌, ◌*◌};
ghost use Rattle.lines.specs.Told.{Follows};
ghost use Rattle.lines.specs.Words.{line_of};
ghost use Rattle.journal.specs.Programs.{apply as applied, clear as cleared, commit as committed, log as logged, write as written};
ghost use Rattle.batches.specs.Writes.{write_of};

use lines::act::Act;
use lines::line::Line;
use lines::tape::Tape;

// The line that says how many entries are committed.
const SUPERBLOCK: u64 = 0;

// A line that is to be written, and what it is to hold.
#[derive(Clone, Copy, Debug, PartialEq, Eq)]
pub struct Write {
    pub to: u64,
    pub text: Line,
}

// The lines of an entry: the number of its target, and its content.
pub(crate) fn target_line(entry: u32) -> u64
    ensures { result ≡ 1 + 2 * entry }
{
    1 + 2 * u64::from(entry)
}

pub(crate) fn content_line(entry: u32) -> u64
    ensures { result ≡ 2 + 2 * entry }
{
    target_line(entry) + 1
}

pub(crate) fn write_line(tape: &mut Tape, k: u64, line: Line) -> Result<(), Act>
    ensures { Follows (written k (line_of line)) tape.old result tape.new }
{
    tape.store(k, line)?;
    tape.settle(k)
}

pub fn log(tape: &mut Tape, entry: u32, w: Write) -> Result<(), Act>
    ensures { Follows (logged entry (write_of w)) tape.old result tape.new }
{
    write_line(tape, target_line(entry), Line::with_number(w.to))?;
    write_line(tape, content_line(entry), w.text)
}

pub fn commit(tape: &mut Tape, entries: u64) -> Result<(), Act>
    ensures { Follows (committed entries) tape.old result tape.new }
{
    write_line(tape, SUPERBLOCK, Line::with_number(entries))
}

pub fn apply(tape: &mut Tape, w: Write) -> Result<(), Act>
    ensures { Follows (applied (write_of w)) tape.old result tape.new }
{
    write_line(tape, w.to, w.text)
}

pub fn clear(tape: &mut Tape) -> Result<(), Act>
    ensures { Follows cleared tape.old result tape.new }
{
    commit(tape, 0)
}
