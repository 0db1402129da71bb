// The parts of values and formulas as they are typed: references, names and constants.
use spelling::constant::Constant;
use spelling::place::Reference;
use std::fmt;
use std::fmt::Write;

// A part that is printed as it is typed.
#[derive(Clone, Copy, Debug, PartialEq, Eq)]
pub struct Typed<T>(pub T);

// Columns are A to Z, then AA to IV.
#[derive(Clone, Copy, Debug, PartialEq, Eq)]
struct Column(u8);

impl fmt::Display for Column {
    fn fmt<W: fmt::Write>(&self, f: &mut fmt::Formatter<W>) -> fmt::Result {
        let col = self.0;
        if col >= 26 {
            f.write_char(char::from(b'A' + (col / 26 - 1)))?;
        }
        f.write_char(char::from(b'A' + col % 26))
    }
}

// Rows are counted from 1.
#[derive(Clone, Copy, Debug, PartialEq, Eq)]
struct Row(u16);

impl fmt::Display for Row {
    fn fmt<W: fmt::Write>(&self, f: &mut fmt::Formatter<W>) -> fmt::Result {
        write!(f, "{}", u32::from(self.0) + 1)
    }
}

fn dollar(fixed: bool) -> &'static str {
    if fixed { "$" } else { "" }
}

impl fmt::Display for Typed<Reference> {
    fn fmt<W: fmt::Write>(&self, f: &mut fmt::Formatter<W>) -> fmt::Result {
        let to = self.0;
        let column = Column(to.place.col);
        let row = Row(to.place.row);
        write!(
            f,
            "{}{column}{}{row}",
            dollar(to.fix_col),
            dollar(to.fix_row)
        )
    }
}

// A name. The mark before it keeps one such as A1 from being read as a place.
impl<'a> fmt::Display for Typed<&'a [u8]> {
    fn fmt<W: fmt::Write>(&self, f: &mut fmt::Formatter<W>) -> fmt::Result {
        f.write_str("@")?;
        for b in self.0.iter().filter(|b| b.is_ascii()) {
            f.write_char(char::from(*b))?;
        }
        Ok(())
    }
}

#[derive(Clone, Copy, Debug, PartialEq, Eq)]
struct Byte(u8);

impl fmt::Display for Byte {
    fn fmt<W: fmt::Write>(&self, f: &mut fmt::Formatter<W>) -> fmt::Result {
        match self.0 {
            b'\'' => f.write_str("''"),
            b'\\' => f.write_str("\\\\"),
            32..=126 => f.write_char(char::from(self.0)),
            b => write!(f, "\\x{b:02x}"),
        }
    }
}

// A text in quotes.
#[derive(Clone, Copy, Debug, PartialEq, Eq)]
struct Text<'a>(&'a [u8]);

impl<'a> fmt::Display for Text<'a> {
    fn fmt<W: fmt::Write>(&self, f: &mut fmt::Formatter<W>) -> fmt::Result {
        f.write_str("'")?;
        for b in self.0 {
            Byte(*b).fmt(f)?;
        }
        f.write_str("'")
    }
}

impl<'a> fmt::Display for Typed<Constant<'a>> {
    fn fmt<W: fmt::Write>(&self, f: &mut fmt::Formatter<W>) -> fmt::Result {
        match self.0 {
            Constant::Number(n) => n.fmt(f),
            Constant::Text(bytes) => Text(bytes).fmt(f),
            Constant::Truth(truth) => truth.fmt(f),
        }
    }
}
