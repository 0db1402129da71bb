// How often a batch had not happened, had happened wholly, or neither.
use std::fmt;

// What a batch that was cut off left.
#[derive(Clone, Copy, Debug, PartialEq, Eq)]
pub enum Outcome {
    Before,
    After,
    Neither,
}

#[derive(Clone, Copy, Debug, Default, PartialEq, Eq)]
pub struct Tally {
    before: u32,
    after: u32,
    neither: u32,
}

impl Tally {
    pub fn note(&mut self, outcome: Outcome) {
        let count = match outcome {
            Outcome::Before => &mut self.before,
            Outcome::After => &mut self.after,
            Outcome::Neither => &mut self.neither,
        };
        *count = count.saturating_add(1);
    }
}

impl fmt::Display for Tally {
    fn fmt<W: fmt::Write>(&self, f: &mut fmt::Formatter<W>) -> fmt::Result {
        write!(
            f,
            "{} as before, {} as after, {} neither",
            self.before, self.after, self.neither
        )
    }
}
