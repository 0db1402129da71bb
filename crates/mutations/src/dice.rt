// Numbers that look like chance and are the same in each run: a linear congruential generator.
ghost use Rattle.std.specs.Prelude.{◌+◌, ◌^◌, ◌<◌, ◌≤◌};

const FACTOR: u64 = 6364136223846793005;

const STEP: u64 = 1442695040888963407;

#[derive(Debug, Drop)]
pub struct Dice {
    state: u64,
}

impl Dice {
    pub fn new(seed: u64) -> Dice {
        Dice { state: seed }
    }

    fn roll(&mut self) -> u64 {
        self.state = self.state.wrapping_mul(FACTOR).wrapping_add(STEP);
        // the low bits of such a generator hardly vary
        self.state >> 33
    }

    pub fn below(&mut self, limit: u64) -> u64
        requires { 0 < limit }
        ensures { result < limit }
    {
        self.roll() % limit
    }

    pub fn byte(&mut self) -> u8 {
        self.below(256) as u8
    }

    pub fn flag(&mut self) -> bool {
        self.below(2) == 1
    }

    // A small number mostly, and at times one at an edge: the last that fits, the one before, or the one behind.
    pub fn near(&mut self, last: u64) -> u64
        requires { (3 ≤ last) × (last < 2 ^ 63) }
        ensures { result ≤ last + 1 }
    {
        if self.below(32) == 0 {
            last - 1 + self.below(3)
        } else {
            self.below(4)
        }
    }
}
