// One step of an engine: it is told one event and does one act.
ghost use Rattle.std.specs.Prelude.{◌≤◌, length};
ghost use Rattle.events.specs.Entry.{StepOf, StepTold, fits_of};
ghost use Rattle.events.specs.Events.{heard};
ghost use Rattle.machine.specs.Engine.{answered, begun, engine_of, moved, told};
ghost use Rattle.machine.specs.Memory.{pushed};

use crate::end::End;
use crate::memory::{Memory, apply, directory, hear, push, registers, run, save};
use crate::stages::{Move, Stages};
use crate::told::tell_act;
use events::event::Event;
use events::sizes::fits;
use events::told::Told;
use lines::line::Line;

// A stage begins with its first act. One that has none is a fault.
fn begin<S: Stages>(memory: &Memory, out: &mut [u8]) -> Told
    requires { 1040 ≤ length out.old }
    ensures { StepTold (begun S.Stages.model memory.now) result memory.now out.old out.new }
{
    match run::<S>(memory) {
        Err(act) => tell_act(act, out),
        Ok(_) => Told::No(0),
    }
}

// A stage has come out.
fn turn<S: Stages>(memory: &mut Memory, made: Move<S::Deed>, out: &mut [u8]) -> Told
    requires { 1040 ≤ length out.old }
    ensures { StepTold (moved S.Stages.model memory.old made) result memory.new out.old out.new }
{
    apply::<S>(memory, made);
    match made.end {
        End::Go => begin::<S>(memory, out),
        End::Done => Told::Done,
        End::Refused(refusal) => Told::No(refusal.number),
    }
}

// The stage goes on, with one answer more.
fn answer<S: Stages>(memory: &mut Memory, line: &Line, out: &mut [u8]) -> Told
    requires { 1040 ≤ length out.old }
    ensures { StepTold (answered S.Stages.model (pushed memory.old line.now.words)) result memory.new out.old out.new }
{
    push(memory, line);
    match run::<S>(memory) {
        Err(act) => tell_act(act, out),
        Ok(made) => turn::<S>(memory, made, out),
    }
}

fn tell<S: Stages>(memory: &mut Memory, event: Event, out: &mut [u8]) -> Told
    requires { 1040 ≤ length out.old }
    ensures { StepTold (told S.Stages.model memory.old (heard event.entry)) result memory.new out.old out.new }
{
    match event {
        Event::On(lines) => {
            save(memory, &S::boot(lines));
            begin::<S>(memory, out)
        }
        Event::Said(text) => {
            let made = S::hear(registers(memory), directory(memory), text);
            hear(memory, text);
            turn::<S>(memory, made, out)
        }
        Event::Line(line) => answer::<S>(memory, &Line::from(line), out),
        Event::Next => answer::<S>(memory, &Line::BLANK, out),
    }
}

// One step: memory of 262,144 words, which the caller keeps from step to step and fills with 0 when power comes; the kind of event (0 power, with
// the number of lines as eight bytes, 1 a command, 2 the line that was asked for, 3 go on) and its bytes; and a row of 131,072 bytes for what is
// stored or shown. Anything else is answered with number 0, and nothing is changed. The signature is fixed.
pub fn step<S: Stages>(memory: &mut [u64], kind: u64, bytes: &[u8], out: &mut [u8]) -> Told
    ensures { StepOf (engine_of S.Stages.model) memory.old kind bytes.now out.old (fits_of (engine_of S.Stages.model) memory.old kind bytes.now out.old) result memory.new out.new }
{
    if !fits(memory, kind, out) {
        return Told::No(0);
    }
    tell::<S>(
        memory.as_mut_array().unwrap(),
        Event::told(kind, bytes),
        out,
    )
}
