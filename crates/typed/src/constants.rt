// Numbers and texts, from the way they are typed to their bytes.
ghost use Rattle.typed.specs.Sizes.{Grows};

use crate::fault::{Expected, Unreadable};
use crate::places::DECIMALS;
use crate::reader::Reader;
use crate::scan::Cursor;
use numbers::millionths::Millionths;
use spelling::kinds::{ConstantKind, FormulaKind};
use spelling::limits::LONGEST_TEXT;

// What a text begins with, up to the last byte of its length.
const TEXT_FRONT: [u8; 9] = [
    FormulaKind::Constant as u8,
    ConstantKind::Text as u8,
    0,
    0,
    0,
    0,
    0,
    0,
    0,
];

// So many whole ones and these decimals, in millionths, if it is not too large to count.
fn millionths(whole: &[u8], decimals: &[u8]) -> Option<u64> {
    let digits = DECIMALS.with_digits(DECIMALS.with_digits(0, whole)?, decimals)?;
    (decimals.len()..6).try_fold(digits, |n, _| n.checked_mul(10))
}

fn hex_digit(b: u8) -> Option<u8> {
    u8::try_from(char::from(b).to_digit(16)?).ok()
}

impl<'a> Cursor<'a> {
    // The digits behind a point, if one comes; else none.
    fn decimals(&mut self) -> Result<&'a [u8], Unreadable> {
        if !self.takes(b'.') {
            return Ok(&[]);
        }
        let refused = Expected::Decimals.at(self.column);
        Some(self.run(u8::is_ascii_digit))
            .filter(|digits| matches!(digits.len(), 1..=6))
            .ok_or(refused)
    }

    // The byte that is meant by what stands behind a backslash.
    fn escape(&mut self) -> Option<u8> {
        match self.byte()? {
            b'\\' => Some(b'\\'),
            b'x' => {
                let high = hex_digit(self.byte()?)?;
                let low = hex_digit(self.byte()?)?;
                Some(high << 4 | low)
            }
            _ => None,
        }
    }

    // The next byte of a text, or none at its closing quote.
    fn text_byte(&mut self) -> Result<Option<u8>, Unreadable> {
        let column = self.column;
        match self.byte() {
            Some(b'\'') => Ok(self.takes(b'\'').then_some(b'\'')),
            Some(b'\\') => Ok(Some(self.escape().ok_or(Expected::Escape.at(column))?)),
            // no text has a 0 that is not escaped
            None | Some(0) => Err(Expected::ClosingQuote.at(column)),
            plain => Ok(plain),
        }
    }
}

impl<'a> Reader<'a> {
    // A number, whose sign may come first.
    pub fn read_number(&mut self) -> Result<(), Unreadable>
        ensures { Grows self.old.code self.new.code }
    {
        let refused = Expected::SmallerNumber.at(self.cursor.column);
        let minus = self.cursor.takes(b'-');
        let whole = self.cursor.run(u8::is_ascii_digit);
        let n = millionths(whole, self.cursor.decimals()?).ok_or(refused)?;
        let below_zero = minus && n > 0;
        let number = Millionths::from_sign(below_zero, n - u64::from(below_zero)).ok_or(refused)?;
        self.code.put_number(number);
        Ok(())
    }

    // A text in quotes: its length is spelled before it, and fits the last of eight bytes.
    pub fn read_text(&mut self) -> Result<(), Unreadable>
        ensures { Grows self.old.code self.new.code }
    {
        let _quote = self.cursor.byte();
        let refused = Expected::ShorterText.at(self.cursor.column);
        self.code.put_all(&TEXT_FRONT);
        let start = self.code.len();
        for length in 0..=LONGEST_TEXT as u8 {
            let Some(b) = self.cursor.text_byte()? else {
                self.code.put_before(start, length);
                return Ok(());
            };
            self.code.put(b);
        }
        Err(refused)
    }
}
