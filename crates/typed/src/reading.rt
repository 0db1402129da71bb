// A line that a person types, read.
ghost use Rattle.std.specs.Prelude.{◌≡◌, IfOk};
ghost use Rattle.typed.specs.Lines.{Sure, answer_to_lem};

use crate::fault::{Expected, Unreadable};
use crate::reader::Reader;
use crate::scan::{Cursor, Word};
use formulas::command::{Command, Refusal, read_command};
use spelling::kinds::{CommandKind, named};
use std::alloc::Global;

// What the rows are that a command is answered with.
#[derive(Clone, Copy, Debug, PartialEq, Eq)]
pub enum Answer {
    // None.
    Done,
    // Values, so many of them to a row of the sheet.
    Values { wide: u16 },
    // The formula of a cell, or none where nothing is written.
    Formula,
}

#[derive(Debug, PartialEq, Eq, Drop)]
pub enum Line {
    // Blank, or a remark.
    Nothing,
    Help,
    Quit,
    Command { bytes: Vec<u8>, answer: Answer },
}

// What a command answers with, by what is read of its bytes; nothing where they are none.
fn answer_to(read: Result<Command, Refusal>) -> Option<Answer>
    ensures { result ≡ answer_to_lem read }
{
    match read {
        Ok(Command::Show(_)) => Some(Answer::Values { wide: 1 }),
        Ok(Command::Rows(area)) => Some(Answer::Values {
            wide: area.columns(),
        }),
        Ok(Command::Written(_)) => Some(Answer::Formula),
        Ok(Command::Set(_) | Command::Wipe(_)) | Err(Refusal::Unknown) => Some(Answer::Done),
        Err(Refusal::Malformed) => None,
    }
}

// What is expected of a command whose bytes are none, though each of its parts can be read: it is too large as a whole.
fn instead(kind: CommandKind) -> Expected {
    match kind {
        CommandKind::Set => Expected::ShallowerFormula,
        CommandKind::Rows => Expected::FewerPlaces,
        _ => Expected::Command,
    }
}

// The command whose first word it is, from behind it to the end of the line. Whatever was read, no bytes go out that are no command.
#[tactic(auto, using(crate::proofs::Sounding::sound))]
fn command(heap: Global, cursor: Cursor, word: Word) -> Result<Line, Unreadable>
    ensures { IfOk result Sure }
{
    let kind: CommandKind = named(word.bytes).ok_or(Expected::Command.at(word.column))?;
    let mut reader = Reader::new(heap, cursor);
    let last = reader.read_command(kind)?;
    let bytes = reader.code.into_bytes()?;
    let refused = instead(kind).at(last);
    let answer = answer_to(read_command(bytes.as_slice())).ok_or(refused)?;
    Ok(Line::Command { bytes, answer })
}

// Reads a line. The bytes of a command that comes out spell one that fits.
pub fn read_line(heap: Global, line: &[u8]) -> Result<Line, Unreadable>
    ensures { IfOk result Sure }
{
    let mut cursor = Cursor::new(line);
    if cursor.ends() || cursor.takes(b'#') {
        return Ok(Line::Nothing);
    }
    let word = cursor.word();
    match word.bytes {
        b"help" => {
            cursor.must_end(Expected::End)?;
            Ok(Line::Help)
        }
        b"quit" => {
            cursor.must_end(Expected::End)?;
            Ok(Line::Quit)
        }
        _ => command(heap, cursor, word),
    }
}
