// How long an engine's memory and the row that it is lent are, and which kinds of events there are: what a step asks of what it is handed.
ghost use Rattle.std.specs.Prelude.{IsTrue, ◌↔◌};
ghost use Rattle.events.specs.Entry.{HasSizes};

pub const MEMORY_WORDS: usize = 262144;

pub const ROW_BYTES: usize = 131072;

const KINDS_OF_EVENTS: u64 = 4;

// A step does nothing where this does not hold. The kind is a number, and memory and row are slices, since the interface of a step is fixed.
pub fn fits(memory: &[u64], kind: u64, out: &[u8]) -> bool
    ensures { IsTrue result ↔ HasSizes memory.now kind out.now }
{
    memory.len() == MEMORY_WORDS && kind < KINDS_OF_EVENTS && out.len() >= ROW_BYTES
}
