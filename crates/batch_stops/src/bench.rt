// A device, and the tape of the stage that runs on it: what the engine does act by act, for one batch or one recovery.
use crate::tally::Outcome;
use batches::journaling::{Journal, batch};
use batches::steps::Write;
use device::memory::Device;
use device::store::LINE_BYTES;
use lines::act::Act;
use lines::line::Line;
use lines::tape::Tape;
use std::alloc::{AllocError, Global};

const LINES: usize = 32;
// Lines 9 to 19 are durable; those behind them are derived.
const JOURNAL: Journal = Journal {
    most_entries: 4,
    last: 20,
};

const FIRST: u64 = 9;

#[derive(Debug, Drop)]
pub struct Bench {
    device: Device,
    answers: Vec<u64>,
}

impl Bench {
    pub fn new(heap: Global) -> Result<Bench, AllocError> {
        Ok(Bench {
            device: Device::fresh(heap, LINES)?,
            answers: Vec::new(heap),
        })
    }

    pub fn store(&mut self, k: u64, line: Line) -> Result<(), AllocError> {
        let mut bytes = [0; LINE_BYTES];
        line.write_to(&mut bytes);
        self.device.store(k, bytes)
    }

    pub fn line(&self, k: u64) -> Line {
        self.device
            .read(k)
            .map_or(Line::BLANK, |bytes| Line::from(&bytes[..]))
    }

    // Carries an act out, and notes what it is answered. Inlined, since an act is as large as the longest row: handed over to a function it is built
    // and copied whole on each way through a stage, where otherwise only the one that is asked for takes shape.
    #[inline(always)]
    fn carry_out(&mut self, act: Act) -> Result<(), AllocError> {
        let mut answer = Line::BLANK;
        match act {
            Act::Read(k) => answer = self.line(k),
            Act::Store(k, line) => self.store(k, line)?,
            Act::Settle(k) => self.device.settle(k),
            Act::Show(_) => {}
        }
        self.answers.extend_from_slice(&answer.words)
    }

    // Runs a stage to its end, or for so many acts.
    fn run<F: Fn(&mut Tape) -> Result<(), Act>>(
        &mut self,
        most_acts: u32,
        stage: F,
    ) -> Result<(), AllocError>
        requires { F.IsAlwaysCallable stage }
    {
        self.answers.clear();
        for _ in 0..most_acts {
            match stage(&mut Tape::new(self.answers.as_slice())) {
                Ok(()) => return Ok(()),
                Err(act) => self.carry_out(act)?,
            }
        }
        Ok(())
    }

    // As many of the writes as the journal takes.
    pub fn batch(&mut self, writes: &[Write], most_acts: u32) -> Result<(), AllocError> {
        let writes = &writes[..writes.len().min(JOURNAL.most_entries as usize)];
        self.run(most_acts, |tape| batch(tape, writes))
    }

    pub fn recover(&mut self, most_acts: u32) -> Result<(), AllocError> {
        self.run(most_acts, |tape| JOURNAL.recover(tape))
    }

    // Power fails: of the stores in the cache those had arrived for which there is a 1.
    pub fn stop(&mut self, arrived: &[u8]) {
        self.device.stop(arrived);
    }

    // What has come of the last writes, where the first ones had happened before.
    pub fn outcome(&self, before: &[Write], writes: &[Write]) -> Outcome {
        if self.holds(before, &[]) {
            Outcome::Before
        } else if self.holds(before, writes) {
            Outcome::After
        } else {
            Outcome::Neither
        }
    }

    // Whether each durable line holds what these writes, one after the other, leave in it.
    fn holds(&self, before: &[Write], writes: &[Write]) -> bool {
        (FIRST..JOURNAL.last).all(|k| self.line(k) == left_in(k, before, writes))
    }
}

fn left_in(k: u64, before: &[Write], writes: &[Write]) -> Line {
    let all = before.iter().chain(writes.iter());
    all.filter(|w| w.to == k)
        .last()
        .map_or(Line::BLANK, |w| w.text)
}
