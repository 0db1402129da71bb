// The engine's memory: how many answers the tape has, the registers, the command, the directory, and the tape.
// All that is written to it is written here.
ghost use Rattle.std.specs.Prelude.{◌≡◌, List, ◌+◌, ◌≤◌, length};
ghost use Rattle.plain.specs.Device.{Line as PlainLine};
ghost use Rattle.lines.specs.Told.{told};
ghost use Rattle.lines.specs.Words.{words_of};
ghost use Rattle.machine.specs.Engine.{applied, deed_done, run_in};
ghost use Rattle.machine.specs.Memory.{command_in, directory_in, fixed, heard as heard_in, part, pushed, registers_in, saved};

use crate::stages::{COMMAND_WORDS, DIRECTORY_WORDS, Move, REGISTER_WORDS, Stages, View};
use events::sizes::MEMORY_WORDS;
use lines::act::Act;
use lines::line::Line;
use lines::tape::Tape;

// One list of words, with the tape's length in it beside the tape: the fixed interface lends memory so, and compares it word by word.
// An alias with free functions: each clause would name the field of a struct around the array, and a field that is lent on loses its elements.
pub type Memory = [u64; MEMORY_WORDS];

const REGISTERS: usize = 1;

const COMMAND: usize = 64;

const DIRECTORY: usize = 200;

const TAPE: usize = 131272;
// The tape has room for so many lines of eight words.
const MOST_ANSWERS: u64 = 16359;

const LINE_WORDS: usize = 8;

const COMMAND_BYTES: usize = 1088;

// One answer more. A tape that is full keeps the last in its last place: no stage is that long.
pub fn push(memory: &mut Memory, line: &Line)
    ensures { memory.new ≡ pushed memory.old line.now.words }
{
    let answers = memory[0].min(MOST_ANSWERS - 1);
    memory[0] = answers + 1;
    let at = TAPE + LINE_WORDS * answers as usize;
    memory[at..at + LINE_WORDS].copy_from_slice(&line.words);
}

// A stage begins: its registers, and no answer yet.
pub fn save(memory: &mut Memory, registers: &[u64; REGISTER_WORDS])
    ensures { memory.new ≡ saved memory.old registers.now }
{
    memory[0] = 0;
    memory[REGISTERS..COMMAND].copy_from_slice(registers);
}

// So many words from a place on.
fn words_at<const N: usize>(memory: &[u64], at: usize) -> &[u64; N]
    requires { at + N ≤ length memory.now }
    ensures { result.now ≡ part at N memory.now }
{
    memory[at..].first_chunk().unwrap()
}

#[tactic(auto, unfolding(crate::specs::Memory::registers_in))]
pub fn registers(memory: &Memory) -> &[u64; REGISTER_WORDS]
    ensures { result.now ≡ registers_in memory.now }
{
    words_at(memory, REGISTERS)
}

#[tactic(auto, unfolding(crate::specs::Memory::directory_in))]
pub fn directory(memory: &Memory) -> &[u64; DIRECTORY_WORDS]
    ensures { result.now ≡ directory_in memory.now }
{
    words_at(memory, DIRECTORY)
}

#[tactic(auto, unfolding(crate::specs::Memory::command_in))]
fn command(memory: &Memory) -> &[u64; COMMAND_WORDS]
    ensures { result.now ≡ command_in memory.now }
{
    words_at(memory, COMMAND)
}

// The stage that memory is in, against the answers that it holds.
pub fn run<S: Stages>(memory: &Memory) -> Result<Move<S::Deed>, Act>
    ensures { (t : List PlainLine) × (run_in S.Stages.model memory.now ≡ told result t) }
{
    let answers = memory[0].min(MOST_ANSWERS) as usize;
    let mut tape = Tape::new(&memory[TAPE..TAPE + LINE_WORDS * answers]);
    let view = View {
        registers: registers(memory),
        command: command(memory),
        directory: directory(memory),
    };
    S::stage(view, &mut tape)
}

pub fn apply<S: Stages>(memory: &mut Memory, made: Move<S::Deed>)
    ensures { memory.new ≡ applied S.Stages.model memory.old made }
{
    change::<S>(memory, made.deed);
    save(memory, &made.registers);
}

fn change<S: Stages>(memory: &mut Memory, deed: S::Deed)
    ensures { memory.new ≡ deed_done S.Stages.model memory.old deed }
{
    change_directory::<S>(&mut memory[DIRECTORY..TAPE], deed);
}

// The directory is handed on as a slice: made an array in place, inside `change`, the proof of what memory ends as did not close.
fn change_directory<S: Stages>(directory: &mut [u64], deed: S::Deed)
    requires { length directory.old ≡ 131072 }
    ensures { directory.new ≡ fixed 131072 (S.Stages.model.apply deed directory.old) }
{
    S::apply(deed, directory.as_mut_array().unwrap());
}

// The words that these bytes make, eight to each, the highest first, are written where they are to lie: an array that is handed out would be copied.
fn pack(bytes: &[u8; COMMAND_BYTES], words: &mut [u64])
    requires { length words.old ≡ 136 }
    ensures { words.new ≡ words_of 136 bytes.now }
{
    let (chunks, _) = bytes.as_chunks();
    for (i, eight) in chunks.iter().enumerate() {
        words[i] = u64::from_be_bytes(*eight);
    }
}

// The command's words: its bytes, as many as there is room for, filled up with 0.
pub fn hear(memory: &mut Memory, text: &[u8])
    ensures { memory.new ≡ heard_in memory.old text.now }
{
    let few = text.len().min(COMMAND_BYTES);
    let mut bytes = [0; COMMAND_BYTES];
    bytes[..few].copy_from_slice(&text[..few]);
    pack(&bytes, &mut memory[COMMAND..DIRECTORY]);
}
