// A number as it is spelled: whether it is below zero, and so many millionths, one less than it is below.
ghost use Rattle.std.specs.Prelude.{◌≡◌};
ghost use Rattle.plain.specs.Read.{signed};
ghost use Rattle.numbers.specs.Meaning.{IsFromSign, num_of};

use crate::millionths::Millionths;

impl Millionths {
    // The number, if it is within the limit. A flag and a number: so it comes from the entry and from the bytes of a command, which are fixed.
    #[tactic(auto, unfolding(plain::specs::Commands::small_num))]
    pub fn from_sign(below_zero: bool, millionths: u64) -> Option<Millionths>
        ensures { IsFromSign below_zero millionths result }
    {
        let count = i128::from(millionths);
        let count = if below_zero { -1 - count } else { count };
        Millionths::within(count).ok()
    }

    // A flag and a number, as the entry and the bytes of a command spell it: both are fixed.
    pub fn sign(self) -> (bool, u64)
        ensures { signed result.0 result.1 ≡ num_of self }
    {
        let count = self.count();
        if count < 0 {
            (true, (-(count + 1)) as u64)
        } else {
            (false, count as u64)
        }
    }
}
