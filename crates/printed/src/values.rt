// Values as text: constants, what is wrong, and nothing.
use crate::parts::Typed;
use spelling::constant::Constant;
use std::fmt;

// What values begin with that are no constants: an enum of all five would say ConstantKind's three again.
const NOTHING: u8 = 0;

const WRONG: u8 = 4;

#[derive(Clone, Copy, Debug, PartialEq, Eq)]
pub enum Value<'a> {
    Nothing,
    Constant(Constant<'a>),
    // What is wrong, by its number, which is printed whatever it is.
    Wrong(u8),
}

impl<'a> Value<'a> {
    // The value at the front, and what is behind it.
    pub fn read(row: &'a [u8]) -> Option<(Value<'a>, &'a [u8])> {
        match row {
            [NOTHING, rest @ ..] => Some((Value::Nothing, rest)),
            [WRONG, which, rest @ ..] => Some((Value::Wrong(*which), rest)),
            _ => {
                let (constant, rest) = Constant::read(row)?;
                Some((Value::Constant(constant), rest))
            }
        }
    }
}

impl<'a> fmt::Display for Value<'a> {
    fn fmt<W: fmt::Write>(&self, f: &mut fmt::Formatter<W>) -> fmt::Result {
        match self {
            Value::Nothing => f.write_str("nothing"),
            Value::Constant(constant) => Typed(*constant).fmt(f),
            Value::Wrong(which) => write!(f, "wrong {which}"),
        }
    }
}
