// What the engine is told: an event, from the kind and bytes in which the world outside hands it over, and the other way round
// for who runs an engine.
ghost use Rattle.std.specs.Prelude.{◌≡◌, take};
ghost use Rattle.events.specs.Entry.{event_of, from_eight};
ghost use Rattle.events.specs.Events.{bytes_in, heard, kind_of};

// A number of eight bytes, the highest first.
const NUMBER_BYTES: usize = 8;

#[derive(Clone, Copy, Debug, PartialEq, Eq)]
pub enum Event<'a> {
    // Power is there, and so many lines.
    On(u64),
    // A command.
    Said(&'a [u8]),
    // The line that was asked for.
    Line(&'a [u8]),
    // The last act is done.
    Next,
}

// Bytes past the eighth do not count, and fewer make a smaller number.
#[tactic(auto, using(crate::proofs::Numbers::pow_few, crate::proofs::Numbers::byte_small, crate::proofs::Numbers::from_all))]
fn number_in(bytes: &[u8]) -> u64
    ensures { result ≡ from_eight 0 (take 8 bytes.now) }
{
    let first = &bytes[..NUMBER_BYTES.min(bytes.len())];
    let mut n = 0;
    for b in first {
        n = 256 * n + u64::from(*b);
    }
    n
}

impl<'a> Event<'a> {
    // 0 power, with the number of lines, 1 a command, 2 a line, and any other kind: go on. Kinds are numbers, as the interface of a step is fixed.
    #[tactic(auto, unfolding(crate::specs::Entry::event_of))]
    pub fn told(kind: u64, bytes: &'a [u8]) -> Event<'a>
        ensures { heard result ≡ event_of kind bytes.now }
    {
        match kind {
            0 => Event::On(number_in(bytes)),
            1 => Event::Said(bytes),
            2 => Event::Line(bytes),
            _ => Event::Next,
        }
    }

    // The kind with which it is handed over.
    pub fn kind(&self) -> u64
        ensures { result ≡ kind_of self.now }
    {
        match self {
            Event::On(_) => 0,
            Event::Said(_) => 1,
            Event::Line(_) => 2,
            Event::Next => 3,
        }
    }

    // The bytes with which it is handed over: a number of lines stands in the lent eight.
    #[tactic(auto, unfolding(crate::specs::Entry::event_of), using(crate::proofs::Numbers::told_lines))]
    pub fn bytes(&self, eight: &'a mut [u8; 8]) -> &'a [u8]
        ensures is { result.now ≡ bytes_in self.now }
        ensures back { event_of (kind_of self.now) result.now ≡ heard self.now }
    {
        match self {
            Event::On(lines) => {
                *eight = lines.to_be_bytes();
                &eight[..]
            }
            Event::Said(text) => text,
            Event::Line(line) => line,
            Event::Next => &[],
        }
    }
}
