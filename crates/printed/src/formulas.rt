// Formulas as text: operators between their operands, with brackets around an operand that is itself one.
use crate::parts::Typed;
use spelling::bytes::one;
use spelling::constant::Constant;
use spelling::kinds::{FormulaKind, Function, NoSuchKind, Operator};
use spelling::limits::DEEPEST_FORMULA;
use spelling::name::name;
use spelling::place::Reference;
use std::alloc::{AllocError, Global};
use std::fmt;

// Why bytes are not printed as a formula.
#[derive(Clone, Copy, Debug, PartialEq, Eq)]
pub enum Unprintable {
    // They are none.
    Malformed,
    Memory(AllocError),
}

impl From<AllocError> for Unprintable {
    fn from(why: AllocError) -> Unprintable {
        Unprintable::Memory(why)
    }
}

impl From<NoSuchKind> for Unprintable {
    fn from(_: NoSuchKind) -> Unprintable {
        Unprintable::Malformed
    }
}

// What is printed of a formula so far, and what is still to be read of it. Want of memory is noted where it comes, and told when the text is asked
// for: so that bytes are no formula is told whatever memory there is.
#[derive(Debug, Drop)]
struct Printer<'a> {
    text: String,
    // Whether something was not printed, for want of memory.
    lost: bool,
    rest: &'a [u8],
}

impl<'a> Printer<'a> {
    // Takes from the front what a reader finds there.
    fn take<T, F: FnOnce(&'a [u8]) -> Option<(T, &'a [u8])>>(
        &mut self,
        read: F,
    ) -> Result<T, Unprintable>
        requires { F.pre read self.old.rest }
    {
        let (part, rest) = read(self.rest).ok_or(Unprintable::Malformed)?;
        self.rest = rest;
        Ok(part)
    }

    // Prints the part that a reader finds at the front.
    fn part<T: Drop, F: FnOnce(&'a [u8]) -> Option<(T, &'a [u8])>>(
        &mut self,
        read: F,
    ) -> Result<(), Unprintable>
    where
        Typed<T>: fmt::Display,
        requires { F.pre read self.old.rest }
    {
        let part = Typed(self.take(read)?);
        self.put(part);
        Ok(())
    }

    fn put<T: fmt::Display + Drop>(&mut self, piece: T) {
        if write!(self.text, "{piece}").is_err() {
            self.lost = true;
        }
    }

    // Prints the formula at the front, at most so deep.
    #[cycle(formulas)]
    fn formula(&mut self, depth: u8) -> Result<(), Unprintable> {
        if depth == 0 {
            return Err(Unprintable::Malformed);
        }
        match FormulaKind::try_from(self.take(one)?)? {
            FormulaKind::Constant => self.part(Constant::read),
            FormulaKind::Cell => self.part(Reference::read),
            FormulaKind::Area => {
                self.part(Reference::read)?;
                self.put(":");
                self.part(Reference::read)
            }
            FormulaKind::Named => self.part(name),
            FormulaKind::Gone => {
                self.put("gone");
                Ok(())
            }
            FormulaKind::Opposite => self.opposite(depth - 1),
            FormulaKind::Operator => self.operator(depth - 1),
            FormulaKind::Function => self.function(depth - 1),
        }
    }

    // Always in brackets, since a minus before digits belongs to the number.
    #[cycle(formulas)]
    fn opposite(&mut self, depth: u8) -> Result<(), Unprintable> {
        self.put("-");
        self.bracketed(depth)
    }

    #[cycle(formulas)]
    fn operator(&mut self, depth: u8) -> Result<(), Unprintable> {
        let operator = Operator::try_from(self.take(one)?)?;
        self.operand(depth)?;
        self.put(" ");
        self.put(operator);
        self.put(" ");
        self.operand(depth)
    }

    // An operand, in brackets where it has a mark of its own.
    #[cycle(formulas)]
    fn operand(&mut self, depth: u8) -> Result<(), Unprintable> {
        let kind = FormulaKind::try_from(*self.rest.first().ok_or(Unprintable::Malformed)?)?;
        if !matches!(kind, FormulaKind::Opposite | FormulaKind::Operator) {
            return self.formula(depth);
        }
        self.bracketed(depth)
    }

    #[cycle(formulas)]
    fn bracketed(&mut self, depth: u8) -> Result<(), Unprintable> {
        self.put("(");
        self.formula(depth)?;
        self.put(")");
        Ok(())
    }

    #[cycle(formulas)]
    fn function(&mut self, depth: u8) -> Result<(), Unprintable> {
        let function = Function::try_from(self.take(one)?)?;
        let n = self.take(one)?;
        self.put(function);
        self.put("(");
        for i in 0..n {
            if i > 0 {
                self.put(", ");
            }
            self.formula(depth)?;
        }
        self.put(")");
        Ok(())
    }

    fn into_text(self) -> Result<String, AllocError> {
        if self.lost {
            Err(AllocError)
        } else {
            Ok(self.text)
        }
    }
}

// The text of a formula that is all of the bytes.
pub fn formula(heap: Global, bytes: &[u8]) -> Result<String, Unprintable> {
    let mut printer = Printer {
        text: String::new(heap),
        lost: false,
        rest: bytes,
    };
    printer.formula(DEEPEST_FORMULA)?;
    if printer.rest.is_empty() {
        Ok(printer.into_text()?)
    } else {
        Err(Unprintable::Malformed)
    }
}
