// The console: one command a line from standard input; what it shows, or why it was refused, on standard output.
#![tactic(auto)]

mod answers;

use answers::answer;
use host::machine::Machine;
use std::io;
use std::io::IsTerminal;
use std::ops::ControlFlow;
use typed::reading::{Line, read_line};

// The smallest device that the engine is made for.
const LINES: usize = 8192;
// More than any command needs: every command ends.
const MOST_ACTS: u64 = 1 << 62;

const HELP: &str = "\
set A1 FORMULA       write a formula or a constant: 12.5, 'cod', true, B1 * C1, sum(A1:A9)
wipe A1:C2           empty a box
show A1              what a place is worth
rows A1:C2           what each place of a box is worth
written A1           what is written in a place
name NAME A1:C2      let a name stand for a place or a box
unname NAME          take the name away
insert rows 3 2      put two rows in before row 3 (or columns: insert columns C 1)
remove rows 3 2      take them out
copy A1:B2 D5        copy a box to where D5 is its first corner
help, quit           this text; the end. A line that begins with # is a remark.";

// Reads one line and answers it, and breaks off where it is the last.
fn one_line(
    rt: &HostRuntime,
    machine: &mut Machine,
    text: &str,
) -> anyhow::Result<ControlFlow<()>> {
    match read_line(rt.alloc(), text.as_bytes()) {
        Ok(Line::Quit) => return Ok(ControlFlow::Break(())),
        Ok(Line::Nothing) => {}
        Ok(Line::Help) => println!(rt; "{HELP}")?,
        Ok(
            Line::Command {
                bytes,
                answer: kind,
            },
        ) => {
            let ran = machine.command(rt.alloc(), bytes.as_slice(), MOST_ACTS)?;
            answer(rt, &ran, kind)?
        }
        Err(why) => println!(rt; "{why}")?,
    }
    Ok(ControlFlow::Continue(()))
}

fn prompt(rt: &HostRuntime, typing: bool) -> io::Result<()> {
    if typing {
        print!(rt; "> ")?;
    }
    Ok(())
}

fn session(rt: &HostRuntime) -> anyhow::Result<()> {
    let typing = rt.stdin().is_terminal();
    let mut machine = Machine::new(rt.alloc(), LINES)?;
    machine.power(rt.alloc(), MOST_ACTS)?;
    prompt(rt, typing)?;
    for line in rt.lines(rt.alloc()) {
        let text = line?;
        if one_line(rt, &mut machine, text.as_str())?.is_break() {
            break;
        }
        prompt(rt, typing)?;
    }
    Ok(())
}

fn main(rt: HostRuntime) -> anyhow::Result<()> {
    session(&rt)
}
