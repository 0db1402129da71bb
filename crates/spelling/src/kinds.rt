// The bytes that say of what kind something is: a command, a formula, a constant, an operator, a function, or rows and columns.
// Each kind is an enum that is read from a byte; those that are typed have their words and marks.
ghost use Rattle.std.specs.Prelude.{◌≡◌, List, ℕ, Some};
ghost use Rattle.spelling.specs.Kinds.{IsBefore, IsNamed, Numbered, all_axes, all_commands, all_functions, all_operators, axis_number, axis_word, command_number, command_word, constant_number, formula_number, function_number, function_word, lines_along, operator_mark, operator_number};

use std::error::Error;
use std::fmt;

// Each enum has its own table from bytes: a search through a list of its variants would need that list and each variant's byte, which is no shorter
// than the table, and slower.

// A byte that stands for no such kind.
#[derive(Clone, Copy, Debug, PartialEq, Eq)]
pub struct NoSuchKind(pub u8);

impl fmt::Display for NoSuchKind {
    fn fmt<W: fmt::Write>(&self, f: &mut fmt::Formatter<W>) -> fmt::Result {
        write!(f, "no such kind has the byte {}", self.0)
    }
}

impl Error for NoSuchKind {}

#[derive(Clone, Copy, Debug, PartialEq, Eq)]
pub enum CommandKind {
    Set = 1,
    Wipe = 2,
    Show = 3,
    Rows = 4,
    Written = 5,
    Name = 6,
    Unname = 7,
    Insert = 8,
    Remove = 9,
    Copy = 10,
}

#[derive(Clone, Copy, Debug, PartialEq, Eq)]
pub enum FormulaKind {
    Constant = 0,
    Cell = 1,
    Area = 2,
    Named = 3,
    Gone = 4,
    Opposite = 5,
    Operator = 6,
    Function = 7,
}

#[derive(Clone, Copy, Debug, PartialEq, Eq)]
pub enum ConstantKind {
    Number = 1,
    Text = 2,
    Truth = 3,
}

#[derive(Clone, Copy, Debug, PartialEq, Eq)]
pub enum Operator {
    Sum = 0,
    Difference = 1,
    Product = 2,
    Quotient = 3,
    Joined = 4,
    Equal = 5,
    Less = 6,
    AtMost = 7,
}

#[derive(Clone, Copy, Debug, PartialEq, Eq)]
pub enum Function {
    Sum = 0,
    Count = 1,
    Least = 2,
    Greatest = 3,
    If = 4,
    Lookup = 5,
    Place = 6,
    SumIf = 7,
    Length = 8,
    Not = 9,
}

// What is put in and taken out.
#[derive(Clone, Copy, Debug, PartialEq, Eq)]
pub enum Axis {
    Columns = 0,
    Rows = 1,
}

impl TryFrom<u8> for CommandKind {
    type Error = NoSuchKind;

    ghost try_from_gives = { Numbered command_number };

    fn try_from(byte: u8) -> Result<Self, NoSuchKind> {
        match byte {
            1 => Ok(CommandKind::Set),
            2 => Ok(CommandKind::Wipe),
            3 => Ok(CommandKind::Show),
            4 => Ok(CommandKind::Rows),
            5 => Ok(CommandKind::Written),
            6 => Ok(CommandKind::Name),
            7 => Ok(CommandKind::Unname),
            8 => Ok(CommandKind::Insert),
            9 => Ok(CommandKind::Remove),
            10 => Ok(CommandKind::Copy),
            _ => Err(NoSuchKind(byte)),
        }
    }
}

impl TryFrom<u8> for FormulaKind {
    type Error = NoSuchKind;

    ghost try_from_gives = { Numbered formula_number };

    fn try_from(byte: u8) -> Result<Self, NoSuchKind> {
        match byte {
            0 => Ok(FormulaKind::Constant),
            1 => Ok(FormulaKind::Cell),
            2 => Ok(FormulaKind::Area),
            3 => Ok(FormulaKind::Named),
            4 => Ok(FormulaKind::Gone),
            5 => Ok(FormulaKind::Opposite),
            6 => Ok(FormulaKind::Operator),
            7 => Ok(FormulaKind::Function),
            _ => Err(NoSuchKind(byte)),
        }
    }
}

impl TryFrom<u8> for ConstantKind {
    type Error = NoSuchKind;

    ghost try_from_gives = { Numbered constant_number };

    fn try_from(byte: u8) -> Result<Self, NoSuchKind> {
        match byte {
            1 => Ok(ConstantKind::Number),
            2 => Ok(ConstantKind::Text),
            3 => Ok(ConstantKind::Truth),
            _ => Err(NoSuchKind(byte)),
        }
    }
}

impl TryFrom<u8> for Operator {
    type Error = NoSuchKind;

    ghost try_from_gives = { Numbered operator_number };

    fn try_from(byte: u8) -> Result<Self, NoSuchKind> {
        match byte {
            0 => Ok(Operator::Sum),
            1 => Ok(Operator::Difference),
            2 => Ok(Operator::Product),
            3 => Ok(Operator::Quotient),
            4 => Ok(Operator::Joined),
            5 => Ok(Operator::Equal),
            6 => Ok(Operator::Less),
            7 => Ok(Operator::AtMost),
            _ => Err(NoSuchKind(byte)),
        }
    }
}

impl TryFrom<u8> for Function {
    type Error = NoSuchKind;

    ghost try_from_gives = { Numbered function_number };

    fn try_from(byte: u8) -> Result<Self, NoSuchKind> {
        match byte {
            0 => Ok(Function::Sum),
            1 => Ok(Function::Count),
            2 => Ok(Function::Least),
            3 => Ok(Function::Greatest),
            4 => Ok(Function::If),
            5 => Ok(Function::Lookup),
            6 => Ok(Function::Place),
            7 => Ok(Function::SumIf),
            8 => Ok(Function::Length),
            9 => Ok(Function::Not),
            _ => Err(NoSuchKind(byte)),
        }
    }
}

impl TryFrom<u8> for Axis {
    type Error = NoSuchKind;

    ghost try_from_gives = { Numbered axis_number };

    fn try_from(byte: u8) -> Result<Self, NoSuchKind> {
        match byte {
            0 => Ok(Axis::Columns),
            1 => Ok(Axis::Rows),
            _ => Err(NoSuchKind(byte)),
        }
    }
}

impl Axis {
    // How many of them the sheet has.
    pub fn lines(self) -> u64
        ensures { result ≡ lines_along self }
    {
        match self {
            Axis::Columns => 256,
            Axis::Rows => 65536,
        }
    }
}

// What a word stands for in a typed line.
pub trait Worded: Copy + 'static {
    ghost kinds: { List Self };

    ghost word: { Self → List ℕ };

    fn all() -> &'static [Self]
        ensures { result.now ≡ kinds };

    fn word(self) -> &'static str
        ensures { result.now ≡ word self };
}

// The kind that this word stands for.
pub fn named<K: Worded>(text: &[u8]) -> Option<K>
    ensures { IsNamed K.Worded.kinds K.Worded.word text.now result }
{
    K::all()
        .iter()
        .copied()
        .find(|kind| kind.word().as_bytes() == text)
}

impl Worded for CommandKind {
    ghost kinds = { all_commands };

    fn all() -> &'static [CommandKind] {
        &[
            CommandKind::Set,
            CommandKind::Wipe,
            CommandKind::Show,
            CommandKind::Rows,
            CommandKind::Written,
            CommandKind::Name,
            CommandKind::Unname,
            CommandKind::Insert,
            CommandKind::Remove,
            CommandKind::Copy,
        ]
    }

    ghost word = { command_word };

    fn word(self) -> &'static str {
        match self {
            CommandKind::Set => "set",
            CommandKind::Wipe => "wipe",
            CommandKind::Show => "show",
            CommandKind::Rows => "rows",
            CommandKind::Written => "written",
            CommandKind::Name => "name",
            CommandKind::Unname => "unname",
            CommandKind::Insert => "insert",
            CommandKind::Remove => "remove",
            CommandKind::Copy => "copy",
        }
    }
}

impl Worded for Function {
    ghost kinds = { all_functions };

    fn all() -> &'static [Function] {
        &[
            Function::Sum,
            Function::Count,
            Function::Least,
            Function::Greatest,
            Function::If,
            Function::Lookup,
            Function::Place,
            Function::SumIf,
            Function::Length,
            Function::Not,
        ]
    }

    ghost word = { function_word };

    fn word(self) -> &'static str {
        match self {
            Function::Sum => "sum",
            Function::Count => "count",
            Function::Least => "least",
            Function::Greatest => "greatest",
            Function::If => "if",
            Function::Lookup => "lookup",
            Function::Place => "place",
            Function::SumIf => "sumif",
            Function::Length => "length",
            Function::Not => "not",
        }
    }
}

impl Worded for Axis {
    ghost kinds = { all_axes };

    fn all() -> &'static [Axis] {
        &[Axis::Columns, Axis::Rows]
    }

    ghost word = { axis_word };

    fn word(self) -> &'static str {
        match self {
            Axis::Columns => "columns",
            Axis::Rows => "rows",
        }
    }
}

// An operator's word is its mark.
impl Worded for Operator {
    ghost kinds = { all_operators };

    // A mark that another begins with stands behind it.
    fn all() -> &'static [Operator] {
        &[
            Operator::Sum,
            Operator::Difference,
            Operator::Product,
            Operator::Quotient,
            Operator::Joined,
            Operator::Equal,
            Operator::AtMost,
            Operator::Less,
        ]
    }

    ghost word = { operator_mark };

    fn word(self) -> &'static str {
        match self {
            Operator::Sum => "+",
            Operator::Difference => "-",
            Operator::Product => "*",
            Operator::Quotient => "/",
            Operator::Joined => "&",
            Operator::Equal => "=",
            Operator::Less => "<",
            Operator::AtMost => "<=",
        }
    }
}

impl Operator {
    // The operator whose mark comes first, the longest where there are two.
    pub fn before(text: &[u8]) -> Option<Operator>
        ensures { IsBefore text.now result }
    {
        Operator::all()
            .iter()
            .copied()
            .find(|operator| text.starts_with(operator.word().as_bytes()))
    }
}

impl fmt::Display for Function {
    ghost output = { λ function. Some (function_word function) };

    fn fmt<W: fmt::Write>(&self, f: &mut fmt::Formatter<W>) -> fmt::Result {
        f.write_str(self.word())
    }
}

impl fmt::Display for Operator {
    ghost output = { λ operator. Some (operator_mark operator) };

    fn fmt<W: fmt::Write>(&self, f: &mut fmt::Formatter<W>) -> fmt::Result {
        let mark = self.word();
        f.write_str(mark)
    }
}
