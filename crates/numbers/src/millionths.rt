// Numbers as whole millionths, below 2^62 of them either way. Products and quotients go by way of 128 bits, and are cut towards 0.
ghost use Rattle.std.specs.Prelude.{◌≡◌, pos};
ghost use Rattle.plain.specs.Term.{add, divided, is_zero, less_num, other as opposite_num, pick, plus, times, within, wrong};
ghost use Rattle.numbers.specs.Meaning.{made_of, num_of, signed};

use crate::wrong::Wrong;
use std::fmt;

#[derive(Clone, Copy, Debug, PartialEq, Eq, PartialOrd, Ord)]
pub struct Millionths {
    pub(crate) count: i64,
}

const LIMIT: i128 = 4611686018427387904;

const ONE: u64 = 1_000_000;

impl Millionths {
    pub const ZERO: Millionths = Millionths { count: 0 };

    // So many millionths, if they are within the limit.
    pub(crate) fn within(count: i128) -> Result<Millionths, Wrong>
        ensures { made_of result ≡ within (signed count) }
    {
        if -LIMIT < count && count < LIMIT {
            Ok(Millionths {
                count: count as i64,
            })
        } else {
            Err(Wrong::Size)
        }
    }

    pub fn count(self) -> i64
        ensures { signed result ≡ num_of self }
    {
        self.count
    }

    pub fn plus(self, other: Millionths) -> Result<Millionths, Wrong>
        ensures { made_of result ≡ within (add (num_of self) (num_of other)) }
    {
        Millionths::within(self.count() as i128 + other.count() as i128)
    }

    pub fn minus(self, other: Millionths) -> Result<Millionths, Wrong>
        ensures { made_of result ≡ within (add (num_of self) (opposite_num (num_of other))) }
    {
        Millionths::within(self.count() as i128 - other.count() as i128)
    }

    pub fn times(self, other: Millionths) -> Result<Millionths, Wrong>
        ensures { made_of result ≡ within (times (num_of self) (num_of other)) }
    {
        Millionths::within(self.count() as i128 * other.count() as i128 / ONE as i128)
    }

    pub fn divided_by(self, other: Millionths) -> Result<Millionths, Wrong>
        ensures { made_of result ≡ pick (is_zero (num_of other)) (wrong 2) (within (divided (num_of self) (num_of other))) }
    {
        let divisor = other.count();
        if divisor == 0 {
            return Err(Wrong::Divisor);
        }
        Millionths::within(self.count() as i128 * ONE as i128 / divisor as i128)
    }

    pub fn opposite(self) -> Result<Millionths, Wrong>
        ensures { made_of result ≡ within (opposite_num (num_of self)) }
    {
        Millionths::within(-(self.count() as i128))
    }

    #[tactic(auto, using(crate::proofs::Signs::less_is))]
    pub fn is_less(self, other: Millionths) -> bool
        ensures { result ≡ less_num (num_of self) (num_of other) }
    {
        self < other
    }
}

// The whole, and behind the point as few of the six decimals as there are.
impl fmt::Display for Millionths {
    fn fmt<W: fmt::Write>(&self, f: &mut fmt::Formatter<W>) -> fmt::Result {
        if self.count < 0 {
            f.write_str("-")?;
        }
        let count = self.count.unsigned_abs();
        write!(f, "{}", count / ONE)?;
        let mut left = count % ONE;
        if left != 0 {
            f.write_str(".")?;
        }
        for unit in [100_000, 10_000, 1_000, 100, 10, 1] {
            if left == 0 {
                break;
            }
            write!(f, "{}", left / unit)?;
            left %= unit;
        }
        Ok(())
    }
}
