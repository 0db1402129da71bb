// Stops batches after every act, and the recovery from each of these stops after every act again, each time with every choice of which stores in the
// cache had arrived; and looks whether the batch happened wholly or not at all.
#![tactic(auto)]

mod bench;
mod tally;

use batches::steps::Write;
use bench::Bench;
use lines::line::Line;
use std::alloc::{AllocError, Global};
use tally::Tally;

// More acts than any batch or recovery here takes.
const MOST_ACTS: u32 = 30;

const BEFORE: [Write; 3] = [
    Write {
        to: 9,
        text: Line { words: [11; 8] },
    },
    Write {
        to: 10,
        text: Line { words: [12; 8] },
    },
    Write {
        to: 12,
        text: Line { words: [13; 8] },
    },
];

// A write; the same line twice, of which the last counts; and as many as the journal takes.
const BATCHES: [&[Write]; 3] = [
    &[Write {
        to: 9,
        text: Line { words: [21; 8] },
    }],
    &[
        Write {
            to: 9,
            text: Line { words: [31; 8] },
        },
        Write {
            to: 19,
            text: Line { words: [32; 8] },
        },
        Write {
            to: 9,
            text: Line { words: [33; 8] },
        },
    ],
    &[
        Write {
            to: 9,
            text: Line { words: [41; 8] },
        },
        Write {
            to: 10,
            text: Line { words: [42; 8] },
        },
        Write {
            to: 11,
            text: Line { words: [43; 8] },
        },
        Write {
            to: 12,
            text: Line { words: [44; 8] },
        },
    ],
];

// Every choice for up to three stores in the cache.
const CHOICES: [[u8; 3]; 8] = [
    [0, 0, 0],
    [0, 0, 1],
    [0, 1, 0],
    [0, 1, 1],
    [1, 0, 0],
    [1, 0, 1],
    [1, 1, 0],
    [1, 1, 1],
];

// A device with some durable lines, and two stores to derived lines in its cache.
fn prepared(heap: Global) -> Result<Bench, AllocError> {
    let mut bench = Bench::new(heap)?;
    bench.batch(&BEFORE, MOST_ACTS)?;
    bench.store(25, Line { words: [61; 8] })?;
    bench.store(26, Line { words: [62; 8] })?;
    Ok(bench)
}

// A batch that is cut off again and again, and what came of it.
#[derive(Debug, Drop)]
struct Trial<'a> {
    heap: Global,
    writes: &'a [Write],
    tally: Tally,
}

impl<'a> Trial<'a> {
    // Cuts the batch off after so many acts, and then its recovery; then recovers wholly.
    fn cut_off(
        &self,
        acts: u32,
        recovery_acts: u32,
        arrived: &[u8; 3],
    ) -> Result<Bench, AllocError> {
        let mut bench = prepared(self.heap)?;
        bench.batch(self.writes, acts)?;
        bench.stop(arrived);
        bench.recover(recovery_acts)?;
        bench.stop(arrived);
        bench.recover(MOST_ACTS)?;
        Ok(bench)
    }

    // The same with every choice.
    fn cut_off_by_choice(&mut self, acts: u32, recovery_acts: u32) -> Result<(), AllocError> {
        for arrived in &CHOICES {
            let bench = self.cut_off(acts, recovery_acts, arrived)?;
            self.tally.note(bench.outcome(&BEFORE, self.writes));
        }
        Ok(())
    }

    // The same with the recovery stopped after every act.
    fn cut_off_twice(&mut self, acts: u32) -> Result<(), AllocError> {
        for recovery_acts in 0..MOST_ACTS {
            self.cut_off_by_choice(acts, recovery_acts)?;
        }
        Ok(())
    }

    // The same with the batch stopped after every act.
    fn cut_off_everywhere(&mut self) -> Result<(), AllocError> {
        for acts in 0..MOST_ACTS {
            self.cut_off_twice(acts)?;
        }
        Ok(())
    }
}

fn main(rt: HostRuntime) -> anyhow::Result<()> {
    for writes in &BATCHES {
        let mut trial = Trial {
            heap: rt.alloc(),
            writes,
            tally: Tally::default(),
        };
        trial.cut_off_everywhere()?;
        println!(rt; "batch of {}, stopped: {}", writes.len(), trial.tally)?;
    }
    Ok(())
}
