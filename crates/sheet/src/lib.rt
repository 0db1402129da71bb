// The sheet engine: one step, which is told one event and does one act. Everything else runs on top of it.
// It knows no command yet: whatever is a command is refused as not known, and whatever is none as malformed.
#![tactic(auto)]

ghost use Rattle.std.specs.Prelude.{◌≡◌};
ghost use Rattle.formulas.specs.Told.{number_of};
ghost use Rattle.plain.specs.Promise.{Whole};
ghost use Rattle.sheet.specs.Entry.{StepSays, own, step_fits};
ghost use Rattle.sheet.specs.Known.{known};
ghost use Rattle.sheet.specs.Own.{refusal_of};
ghost use Rattle.sheet.specs.Stores.{StoresLines};

use events::event::Event;
use events::sizes::fits;
pub use events::sizes::{MEMORY_WORDS, ROW_BYTES};
pub use events::told::Told;
use formulas::command::{Refusal, read_command};

// Why bytes are refused: nothing is known yet, so a command of the core is not known either.
fn refusal(bytes: &[u8]) -> Refusal
    ensures { number_of result ≡ refusal_of bytes.now }
{
    match read_command(bytes) {
        Ok(_) => Refusal::Unknown,
        Err(why) => why,
    }
}

// One step: memory of 262,144 words, which the caller keeps from step to step and fills with 0 when power comes; the kind of event (0 power, with
// the number of lines as eight bytes, 1 a command, 2 the line that was asked for, 3 go on) and its bytes; and a row of 131,072 bytes for what is
// stored or shown. Anything else is answered with number 0, and nothing is changed. The signature is fixed.
#[tactic(auto, using(crate::proofs::Steps::no_says, crate::proofs::Steps::says), unfolding(events::specs::Entry::ActTold))]
pub fn step(memory: &mut [u64], kind: u64, bytes: &[u8], out: &mut [u8]) -> Told
    ensures { StepSays memory.old kind bytes.now out.old (step_fits memory.old kind bytes.now out.old) result memory.new out.new }
{
    if !fits(memory, kind, out) {
        return Told::No(0);
    }
    match Event::told(kind, bytes) {
        Event::On(_) => Told::Done,
        Event::Said(text) => Told::No(u64::from(refusal(text))),
        Event::Line(_) | Event::Next => Told::No(u64::from(Refusal::Malformed)),
    }
}

// The main promise, over what is known by now: for all devices, commands and power failures the engine does what the plain sheet does.
#[tactic(auto, using(crate::proofs::Whole::whole_known))]
pub fn whole_stands() -> u8
    ensures { Whole known own }
{
    0
}

// Whatever its memory holds and whatever it is told, the engine stores only lines of 64 bytes.
#[tactic(auto, using(crate::proofs::Steps::stores_lines))]
pub fn stores_stand() -> u8
    ensures { StoresLines }
{
    0
}
