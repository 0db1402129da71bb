// What is wrong with a line: what was expected, and at which column.
ghost use Rattle.std.specs.Prelude.{◌≡◌};
ghost use Rattle.typed.specs.declared.fault.Unreadable.TheVariants.{Lacks, Memory};

use std::alloc::AllocError;
use std::fmt;

#[derive(Clone, Copy, Debug, PartialEq, Eq)]
pub enum Expected {
    Command,
    Place,
    Name,
    Formula,
    RowsOrColumns,
    Row,
    Column,
    HowMany,
    Decimals,
    SmallerNumber,
    Escape,
    ClosingQuote,
    ShorterText,
    ClosingBracket,
    CommaOrBracket,
    FewerValues,
    OperatorOrEnd,
    End,
    ShorterFormula,
    ShallowerFormula,
    FewerPlaces,
}

impl fmt::Display for Expected {
    fn fmt<W: fmt::Write>(&self, f: &mut fmt::Formatter<W>) -> fmt::Result {
        f.write_str(match self {
            Expected::Command => "a command such as set, show or help",
            Expected::Place => "a place such as B7, from A1 to IV65536",
            Expected::Name => "a name such as price, of at most 64 letters, digits and _",
            Expected::Formula => "a formula such as 12, 'cod', B7 or sum(A1:C2)",
            Expected::RowsOrColumns => "rows or columns",
            Expected::Row => "a row from 1 to 65536",
            Expected::Column => "a column from A to IV",
            Expected::HowMany => "how many of them, from 1 to all that there are",
            Expected::Decimals => "one to six decimals",
            Expected::SmallerNumber => "a number of at most 4611686018427.387903",
            Expected::Escape => "\\\\, or \\x and two digits of 0 to 9 and A to F",
            Expected::ClosingQuote => "a closing quote",
            Expected::ShorterText => "a text of at most 255 bytes",
            Expected::ClosingBracket => "an operator or a closing bracket",
            Expected::CommaOrBracket => "an operator, a comma or a closing bracket",
            Expected::FewerValues => "no more than 16 values",
            Expected::OperatorOrEnd => "an operator or the end of the line",
            Expected::End => "the end of the line",
            Expected::ShorterFormula => "a shorter formula, of at most 1024 bytes",
            Expected::ShallowerFormula => "a formula less deep, of at most 32 levels",
            Expected::FewerPlaces => "no more than 4096 places",
        })
    }
}

impl Expected {
    // Why a line is refused where something else stands in its place.
    pub fn at(self, column: usize) -> Unreadable
        ensures { result ≡ Lacks self column }
    {
        Unreadable::Lacks(self, column)
    }
}

// Why a line is not read.
#[derive(Clone, Copy, Debug, PartialEq, Eq)]
pub enum Unreadable {
    // What was expected, and at which column: they count bytes, from 1.
    Lacks(Expected, usize),
    // There is no memory to read it into.
    Memory,
}

impl From<AllocError> for Unreadable {
    ghost from_gives = { λ _ e. e ≡ Memory };

    fn from(_: AllocError) -> Self {
        Self::Memory
    }
}

impl fmt::Display for Unreadable {
    fn fmt<W: fmt::Write>(&self, f: &mut fmt::Formatter<W>) -> fmt::Result {
        match self {
            Unreadable::Lacks(expected, column) => {
                write!(f, "expected {expected} at column {column}")
            }
            Unreadable::Memory => f.write_str("no memory is left"),
        }
    }
}
