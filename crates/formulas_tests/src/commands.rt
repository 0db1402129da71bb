// What is told of commands. A table has a line for each case: what is expected, a colon, and the bytes.
use crate::notation::bytes;
use formulas::command::{Command, Refusal, read_command};
use spelling::place::{Area, Place};
use std::alloc::{AllocError, Global};
use std::process::Abort;
use std::test::Fail;

fn only(place: Place) -> Area {
    Area {
        first: place,
        last: place,
    }
}

// What is told of bytes, in words: the command and its box, where a place is a box of its own; or why it is refused.
fn told(heap: Global, code: &[u8]) -> Result<String, AllocError> {
    let (kind, area) = match read_command(code) {
        Ok(Command::Set(place)) => ("set", only(place)),
        Ok(Command::Wipe(area)) => ("wipe", area),
        Ok(Command::Show(place)) => ("show", only(place)),
        Ok(Command::Rows(area)) => ("rows", area),
        Ok(Command::Written(place)) => ("written", only(place)),
        Err(Refusal::Unknown) => return String::from_str(heap, "unknown"),
        Err(Refusal::Malformed) => return String::from_str(heap, "malformed"),
    };
    format!(in heap;
        "{kind} {} {} {} {}",
        area.first.col, area.first.row, area.last.col, area.last.row
    )
}

fn hold_line(rt: &impl Abort, heap: Global, line: &str) -> Result<(), Fail> {
    let (expected, code) = line.split_once(':').ok_or_else(|| Fail::new(format_args!(
        "a line without a colon: {line}"
    )))?;
    let code = bytes(heap, code)?;
    let found = told(heap, code.as_slice())?;
    assert_eq!(rt; found.as_str(), expected, "{line}");
    Ok(())
}

fn hold(rt: &impl Abort, heap: Global, table: &str) -> Result<(), Fail> {
    for line in table.lines() {
        hold_line(rt, heap, line)?;
    }
    Ok(())
}

// Each kind, kinds that there are not, a byte behind a command, what a name cannot stand for, and no bytes.
const COMMANDS: &str = "set 2 259 2 259: 1 2 #259 0 3 1
wipe 2 3 5 65535: 2 2 #3 5 #65535
show 255 65535 255 65535: 3 255 #65535
rows 2 3 5 6: 4 2 #3 5 #6
written 2 3 2 3: 5 2 #3
unknown: 6 #3 97 95 57 1 2 #3 1 0
unknown: 6 #3 97 95 57 2 2 #3 1 0 2 #3 0 1
unknown: 7 #3 97 95 57
unknown: 8 1 #3 #4
unknown: 9 0 #3 #4
unknown: 10 2 #3 5 #6 7 #8
malformed: 0 2 #3
malformed: 11 2 #3
malformed: 3 2 #3 0
malformed: 6 #1 97 0 3 1
malformed: 6 #1 97 3 #1 98
malformed:";

#[test]
fn each_kind_of_command(rt: HostRuntime) -> Result<(), Fail> {
    hold(&rt, rt.alloc(), COMMANDS)
}

// Each formula is that of the cell with the column 1 and the row 2.
const FORMULAS: &str = "set 1 2 1 2: 1 1 #2 0 1 0 #5
set 1 2 1 2: 1 1 #2 0 1 1 #5
set 1 2 1 2: 1 1 #2 0 2 #2 104 105
set 1 2 1 2: 1 1 #2 0 3 0
malformed: 1 1 #2 0 0
malformed: 1 1 #2 0 1 2 #5
malformed: 1 1 #2 0 2 #3 104 105
malformed: 1 1 #2 0 3 2
malformed: 1 1 #2 0 4 1
set 1 2 1 2: 1 1 #2 1 3 #4 0 1
malformed: 1 1 #2 1 3 #4 0 2
malformed: 1 1 #2 1 3 #65536 0 1
unknown: 1 1 #2 2 3 #4 0 1 5 #6 1 0
malformed: 1 1 #2 2 3 #4 0 1
unknown: 1 1 #2 3 #1 97
malformed: 1 1 #2 3 #0
unknown: 1 1 #2 4
set 1 2 1 2: 1 1 #2 5 0 3 1
unknown: 1 1 #2 5 4
set 1 2 1 2: 1 1 #2 6 0 0 3 1 1 3 #4 0 1
unknown: 1 1 #2 6 0 4 0 3 1
unknown: 1 1 #2 6 0 0 3 1 4
malformed: 1 1 #2 6 0 0 3 1
set 1 2 1 2: 1 1 #2 7 4 3 0 3 1 1 3 #4 0 1 5 0 3 0
set 1 2 1 2: 1 1 #2 7 4 0
unknown: 1 1 #2 7 4 2 0 3 1 4
unknown: 1 1 #2 7 3 2 0 3 1 0 3 0
malformed: 1 1 #2 7 4 2 0 3 1
malformed: 1 1 #2 8
malformed: 1 1 #2";

#[test]
fn each_kind_of_formula(rt: HostRuntime) -> Result<(), Fail> {
    hold(&rt, rt.alloc(), FORMULAS)
}

// Depth, bytes, values, text, numbers, operators and functions.
const FORMULA_LIMITS: &str = "set 0 0 0 0: 1 0 #0 5*31 0 3 1
malformed: 1 0 #0 5*32 0 3 1
set 0 0 0 0: 1 0 #0 7 4 4 0 2 #255 120*255 0 2 #255 120*255 0 2 #255 120*255 0 2 #216 120*216
malformed: 1 0 #0 7 4 4 0 2 #255 120*255 0 2 #255 120*255 0 2 #255 120*255 0 2 #217 120*217
unknown: 1 0 #0 7 4 16 4*16
malformed: 1 0 #0 7 4 17 4*17
set 0 0 0 0: 1 0 #0 0 2 #255 120*255
malformed: 1 0 #0 0 2 #256 120*256
set 0 0 0 0: 1 0 #0 0 2 #0
set 0 0 0 0: 1 0 #0 0 1 0 #4611686018427387903
malformed: 1 0 #0 0 1 0 #4611686018427387904
set 0 0 0 0: 1 0 #0 0 1 1 #4611686018427387902
malformed: 1 0 #0 0 1 1 #4611686018427387903
set 0 0 0 0: 1 0 #0 6 7 0 3 1 0 3 0
malformed: 1 0 #0 6 8 0 3 1 0 3 0
unknown: 1 0 #0 7 9 1 0 3 1
malformed: 1 0 #0 7 10 1 0 3 1";

#[test]
fn limits_of_formulas(rt: HostRuntime) -> Result<(), Fail> {
    hold(&rt, rt.alloc(), FORMULA_LIMITS)
}

// The last row, 4,096 places, corners the right way round, rows and columns, and places to copy to.
const COMMAND_LIMITS: &str = "written 255 65535 255 65535: 5 255 #65535
malformed: 5 255 #65536
rows 0 0 0 4095: 4 0 #0 0 #4095
malformed: 4 0 #0 0 #4096
rows 0 0 15 255: 4 0 #0 15 #255
malformed: 4 0 #0 16 #240
wipe 0 0 255 65535: 2 0 #0 255 #65535
wipe 3 3 3 3: 2 3 #3 3 #3
malformed: 2 3 #3 2 #3
malformed: 2 3 #3 3 #2
malformed: 2 0 #0 255 #65536
unknown: 8 1 #65535 #65536
malformed: 8 1 #65536 #1
malformed: 8 1 #0 #65537
unknown: 9 0 #255 #256
malformed: 9 0 #256 #1
malformed: 9 0 #0 #257
malformed: 9 0 #0 #0
malformed: 9 2 #0 #1
malformed: 10 2 #3 5 #6 7 #65536
malformed: 10 2 #3 1 #6 7 #8";

#[test]
fn limits_of_commands(rt: HostRuntime) -> Result<(), Fail> {
    hold(&rt, rt.alloc(), COMMAND_LIMITS)
}

// Length, and the bytes next to letters, digits and the underscore.
const NAME_LIMITS: &str = "unknown: 7 #64 97*64
malformed: 7 #65 97*65
unknown: 7 #1 97
malformed: 7 #0
unknown: 7 #7 48 57 65 90 95 97 122
malformed: 7 #1 47
malformed: 7 #1 58
malformed: 7 #1 64
malformed: 7 #1 91
malformed: 7 #1 94
malformed: 7 #1 96
malformed: 7 #1 123
malformed: 7 #2 97 45";

#[test]
fn limits_of_names(rt: HostRuntime) -> Result<(), Fail> {
    hold(&rt, rt.alloc(), NAME_LIMITS)
}

fn is_malformed(code: &[u8]) -> bool {
    matches!(read_command(code), Err(Refusal::Malformed))
}

const LONG: &str =
    "1 2 #259 7 4 3 6 5 1 3 #4 0 1 0 1 1 #77 5 0 2 #3 97 98 99 6 0 3 #2 97 98 2 3 #4 0 1 5 #6 1 0";

// A command that is cut short anywhere is none.
#[test]
fn cut_short(rt: HostRuntime) -> Result<(), Fail> {
    let code = bytes(rt.alloc(), LONG)?;
    for end in 0..code.len() {
        assert!(rt; is_malformed(&code.as_slice()[0..end]), "{end}");
    }
    assert!(rt; !is_malformed(code.as_slice()));
    Ok(())
}
