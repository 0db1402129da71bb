// What an act came to where the command goes on.
ghost use Rattle.std.specs.Prelude.{◌≡◌};
ghost use Rattle.events.specs.Events.{heard};
ghost use Rattle.host.specs.Acts.{lines_of, told_after};

use device::store::LINE_BYTES;
use events::event::Event;

#[derive(Clone, Copy, Debug, PartialEq, Eq)]
pub enum After {
    // The line that was asked for, where there is such a line.
    Line(Option<[u8; LINE_BYTES]>),
    Stored,
    Next,
}

impl After {
    // How many lines the act used.
    pub(crate) fn lines(&self) -> u64
        ensures { result ≡ lines_of self.now }
    {
        match self {
            After::Line(_) | After::Stored => 1,
            After::Next => 0,
        }
    }

    // What the engine is told next.
    pub(crate) fn event(&self) -> Event<'_>
        ensures { heard result ≡ told_after self.now }
    {
        match self {
            After::Line(Some(line)) => Event::Line(line),
            After::Line(None) => Event::Line(&[]),
            After::Stored | After::Next => Event::Next,
        }
    }
}
