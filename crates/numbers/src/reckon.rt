// The entry that reckons with two numbers, as they are spelled. Its operations, signs and refusals are numbers, since that interface is fixed.
ghost use Rattle.std.specs.Prelude.{◌≡◌, MatchResult};
ghost use Rattle.numbers.specs.Entry.{operation_numbered, reckoned, refusal_number, refused, replied, worked_out};
ghost use Rattle.numbers.specs.Meaning.{made_of, num_of};

use crate::millionths::Millionths;
use crate::wrong::Wrong;

#[derive(Clone, Copy, Debug, PartialEq, Eq)]
pub enum Reply {
    // So many millionths.
    Above(u64),
    // One more than so many millionths below zero.
    Below(u64),
    // What is wrong.
    Wrong(u64),
    // The number of the refusal.
    Refused(u64),
}

// Why nothing is reckoned.
#[derive(Clone, Copy, Debug, PartialEq, Eq)]
pub enum Refusal {
    // There is no such operation.
    Operation,
    // A number is too large.
    Size,
}

// Not the operators of formulas, which are more and stand in a crate above: the entry has these four, by its own numbers.
#[derive(Clone, Copy, Debug, PartialEq, Eq)]
pub enum Operation {
    Sum,
    Difference,
    Product,
    Quotient,
}

impl TryFrom<u64> for Operation {
    type Error = Refusal;

    ghost try_from_gives = { λ number res. res ≡ operation_numbered number };

    fn try_from(number: u64) -> Result<Operation, Refusal> {
        match number {
            0 => Ok(Operation::Sum),
            1 => Ok(Operation::Difference),
            2 => Ok(Operation::Product),
            3 => Ok(Operation::Quotient),
            _ => Err(Refusal::Operation),
        }
    }
}

impl Operation {
    pub fn of(self, a: Millionths, b: Millionths) -> Result<Millionths, Wrong>
        ensures { made_of result ≡ worked_out self (num_of a) (num_of b) }
    {
        match self {
            Operation::Sum => a.plus(b),
            Operation::Difference => a.minus(b),
            Operation::Product => a.times(b),
            Operation::Quotient => a.divided_by(b),
        }
    }
}

impl From<Refusal> for u64 {
    ghost from_gives = { λ refusal number. number ≡ refusal_number refusal };

    fn from(refusal: Refusal) -> u64 {
        match refusal {
            Refusal::Operation => 1,
            Refusal::Size => 2,
        }
    }
}

impl From<Refusal> for Reply {
    ghost from_gives = { λ refusal reply. reply ≡ refused refusal };

    fn from(refusal: Refusal) -> Reply {
        Reply::Refused(u64::from(refusal))
    }
}

impl From<Result<Millionths, Wrong>> for Reply {
    ghost from_gives = { λ made reply. reply ≡ replied (made_of made) };

    fn from(made: Result<Millionths, Wrong>) -> Reply {
        match made {
            Ok(number) => {
                let (below_zero, millionths) = number.sign();
                if below_zero {
                    Reply::Below(millionths)
                } else {
                    Reply::Above(millionths)
                }
            }
            Err(wrong) => Reply::Wrong(u64::from(u8::from(wrong))),
        }
    }
}

// What is made of the two numbers, if there is such an operation and both are small enough.
fn made(op: u64, a: u64, x: u64, b: u64, y: u64) -> Result<Reply, Refusal>
    ensures { MatchResult result (λ reply. reply ≡ reckoned op a x b y) (λ refusal. refused refusal ≡ reckoned op a x b y) }
{
    let operation = Operation::try_from(op)?;
    let left = Millionths::from_sign(x != 0, a).ok_or(Refusal::Size)?;
    let right = Millionths::from_sign(y != 0, b).ok_or(Refusal::Size)?;
    Ok(Reply::from(operation.of(left, right)))
}

// The operation is 0 sum, 1 difference, 2 product, 3 quotient. A number is so many millionths, and not 0 behind it where it is one more than so many
// below zero. Refused with 1 is any other operation, with 2 a number that is too large.
pub fn reckon(op: u64, a: u64, x: u64, b: u64, y: u64) -> Reply
    ensures { result ≡ reckoned op a x b y }
{
    made(op, a, x, b, y).unwrap_or_else(Reply::from)
}
