// Formulas, from the order in which a person writes them to the order in which they are spelled: each operator before its two operands.
ghost use Rattle.typed.specs.Sizes.{Grows};

use crate::fault::{Expected, Unreadable};
use crate::reader::Reader;
use crate::scan::Cursor;
use crate::words::level;
use spelling::kinds::{FormulaKind, Function, Operator, Worded, named};
use spelling::limits::{DEEPEST_FORMULA, LONGEST_FORMULA, MOST_VALUES};

// Tighter than any operator binds.
const TIGHTEST: u8 = 4;

// The bytes of a cell that is set, its place and its formula.
const LONGEST: usize = 10 + LONGEST_FORMULA;

// Brackets, operators and functions each take one of these while they are open; they suffice for the deepest formula with brackets around each part.
const LEVELS: u8 = 80;

impl<'a> Cursor<'a> {
    // Takes the operator that comes next, if it binds at least as tightly as that.
    fn operator(&mut self, lowest: u8) -> Option<Operator> {
        self.skip_blanks();
        let found = Operator::before(self.rest()).filter(|found| level(*found) >= lowest)?;
        let _mark = self.take(found.word().len());
        Some(found)
    }
}

impl<'a> Reader<'a> {
    // A formula in which each operator binds at least as tightly as that.
    #[cycle(formulas)]
    fn formula(&mut self, lowest: u8, depth: u8) -> Result<(), Unreadable>
        ensures { Grows self.old.code self.new.code }
    {
        if depth == 0 {
            return Err(Expected::ShallowerFormula.at(self.cursor.column));
        }
        let start = self.code.len();
        self.operand(depth - 1)?;
        if self.code.len() > LONGEST {
            return Err(Expected::ShorterFormula.at(self.cursor.column));
        }
        // Each further operator makes the formula deeper by one.
        for _ in 0..DEEPEST_FORMULA {
            let Some(found) = self.cursor.operator(lowest) else {
                return Ok(());
            };
            // What is spelled from the start on becomes the first operand.
            self.code.put_before(start, found as u8);
            self.code.put_before(start, FormulaKind::Operator as u8);
            self.formula(level(found) + 1, depth - 1)?;
        }
        Err(Expected::ShallowerFormula.at(self.cursor.column))
    }

    // An operand, by the mark with which it begins; a minus before a digit is the number's.
    #[cycle(formulas)]
    fn operand(&mut self, depth: u8) -> Result<(), Unreadable>
        ensures { Grows self.old.code self.new.code }
    {
        self.cursor.skip_blanks();
        match self.cursor.rest() {
            [b'0'..=b'9', ..] | [b'-', b'0'..=b'9', ..] => self.read_number(),
            [b'\'', ..] => self.read_text(),
            [b'@', ..] => self.read_named(),
            [b'-', ..] => self.opposite(depth),
            [b'(', ..] => self.bracketed(depth),
            _ => self.worded(depth),
        }
    }

    #[cycle(formulas)]
    fn opposite(&mut self, depth: u8) -> Result<(), Unreadable>
        ensures { Grows self.old.code self.new.code }
    {
        let _minus = self.cursor.byte();
        self.code.put(FormulaKind::Opposite as u8);
        self.formula(TIGHTEST, depth)
    }

    #[cycle(formulas)]
    fn bracketed(&mut self, depth: u8) -> Result<(), Unreadable>
        ensures { Grows self.old.code self.new.code }
    {
        let _bracket = self.cursor.byte();
        self.formula(0, depth)?;
        if self.cursor.takes(b')') {
            Ok(())
        } else {
            Err(Expected::ClosingBracket.at(self.cursor.column))
        }
    }

    #[cycle(formulas)]
    fn worded(&mut self, depth: u8) -> Result<(), Unreadable>
        ensures { Grows self.old.code self.new.code }
    {
        let word = self.cursor.word();
        match named::<Function>(word.bytes) {
            Some(found) if self.cursor.passes(b'(') => {
                self.code.put(FormulaKind::Function as u8);
                self.code.put(found as u8);
                self.call(depth)
            }
            _ => self.read_word(word),
        }
    }

    // The values of a function, from behind the opening bracket to the closing one; their number is spelled before them.
    #[cycle(formulas)]
    fn call(&mut self, depth: u8) -> Result<(), Unreadable>
        ensures { Grows self.old.code self.new.code }
    {
        let start = self.code.len();
        if self.cursor.passes(b')') {
            self.code.put(0);
            return Ok(());
        }
        for n in 1..=MOST_VALUES {
            self.formula(0, depth)?;
            if self.cursor.takes(b')') {
                self.code.put_before(start, n);
                return Ok(());
            }
            if !self.cursor.takes(b',') {
                return Err(Expected::CommaOrBracket.at(self.cursor.column));
            }
        }
        Err(Expected::FewerValues.at(self.cursor.column))
    }

    // The formula that comes next. No operator is behind it.
    pub fn read_formula(&mut self) -> Result<(), Unreadable> {
        self.formula(0, LEVELS)
    }
}
