// Constants: numbers, texts and truths.
ghost use Rattle.plain.specs.Read.{read_value, value_tag};
ghost use Rattle.spelling.specs.Meaning.{Reads, value_of};

use crate::bytes::{counted, flag, number, one};
use crate::kinds::ConstantKind;
use crate::limits::LONGEST_TEXT;
use numbers::millionths::Millionths;

#[derive(Clone, Copy, Debug, PartialEq, Eq)]
pub enum Constant<'a> {
    Number(Millionths),
    Text(&'a [u8]),
    Truth(bool),
}

fn signed_number(bytes: &[u8]) -> Option<(Constant, &[u8])>
    ensures { Reads value_of (value_tag 1 bytes.now) result }
{
    let (below_zero, rest) = flag(bytes)?;
    let (millionths, rest) = number(rest)?;
    let found = Millionths::from_sign(below_zero, millionths)?;
    Some((Constant::Number(found), rest))
}

impl<'a> Constant<'a> {
    pub fn read(bytes: &'a [u8]) -> Option<(Constant<'a>, &'a [u8])>
        ensures { Reads value_of (read_value bytes.now) result }
    {
        let (tag, rest) = one(bytes)?;
        match ConstantKind::try_from(tag).ok()? {
            ConstantKind::Number => signed_number(rest),
            ConstantKind::Text => {
                let (text, rest) = counted(rest, LONGEST_TEXT)?;
                Some((Constant::Text(text), rest))
            }
            ConstantKind::Truth => {
                let (truth, rest) = flag(rest)?;
                Some((Constant::Truth(truth), rest))
            }
        }
    }
}
