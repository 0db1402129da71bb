// Places as a person types them: letters for the column, and the row from 1; a $ before either fixes it.
use crate::fault::{Expected, Unreadable};
use crate::scan::{Cursor, Word};
use spelling::place::{Area, Place, Reference};
use std::num::TryFromIntError;

// How numbers are written: how many digits there are, and the byte for zero.
#[derive(Clone, Copy, Debug, PartialEq, Eq)]
pub struct Numerals {
    base: u64,
    zero: u8,
}

pub const DECIMALS: Numerals = Numerals {
    base: 10,
    zero: b'0',
};

// Letters are digits by how far they are behind @, which is one before A.
pub const LETTERS: Numerals = Numerals {
    base: 26,
    zero: b'@',
};

impl Numerals {
    // What the byte counts for. A byte that is further than the base is no digit.
    fn digit(self, b: u8) -> Option<u64> {
        Some(u64::from(b.to_ascii_uppercase().wrapping_sub(self.zero))).filter(|n| *n <= self.base)
    }

    // The number with these digits behind those of n, if it is not too large.
    pub fn with_digits(self, n: u64, digits: &[u8]) -> Option<u64> {
        digits.iter().try_fold(
            n,
            |n, b| n.checked_mul(self.base)?.checked_add(self.digit(*b)?),
        )
    }

    // The row or the column, from 0, that these digits count from 1.
    pub fn line<T: TryFrom<u64, Error = TryFromIntError>>(self, digits: &[u8]) -> Option<T> {
        let n = self.with_digits(0, digits)?;
        T::try_from(n.checked_sub(1)?).ok()
    }
}

// A word that has the shape of a place, on the sheet or not: one or two letters and then digits.
#[derive(Clone, Copy, Debug, PartialEq, Eq)]
struct Shape<'a> {
    fix_col: bool,
    letters: &'a [u8],
    fix_row: bool,
    digits: &'a [u8],
}

fn shaped(word: &[u8]) -> Option<Shape> {
    let mut cursor = Cursor::new(word);
    let fix_col = cursor.takes(b'$');
    let letters = cursor.run(u8::is_ascii_alphabetic);
    let fix_row = cursor.takes(b'$');
    let digits = cursor.run(u8::is_ascii_digit);
    if letters.is_empty() || letters.len() > 2 || digits.is_empty() || !cursor.ends() {
        return None;
    }
    Some(Shape {
        fix_col,
        letters,
        fix_row,
        digits,
    })
}

pub fn has_shape_of_place(word: &[u8]) -> bool {
    shaped(word).is_some()
}

fn as_reference(word: &[u8]) -> Option<Reference> {
    let shape = shaped(word)?;
    Some(Reference {
        place: Place {
            col: LETTERS.line(shape.letters)?,
            row: DECIMALS.line(shape.digits)?,
        },
        fix_col: shape.fix_col,
        fix_row: shape.fix_row,
    })
}

// A place as a formula has it.
pub fn reference(word: Word) -> Result<Reference, Unreadable> {
    as_reference(word.bytes).ok_or(Expected::Place.at(word.column))
}

// A place as a command has it, which nothing can fix.
pub fn place(word: Word) -> Result<Place, Unreadable> {
    as_reference(word.bytes)
        .filter(|to| !to.fix_col && !to.fix_row)
        .map(|to| to.place)
        .ok_or(Expected::Place.at(word.column))
}

// A place, or two opposite corners of a box.
pub fn area(cursor: &mut Cursor) -> Result<Area, Unreadable> {
    let a = place(cursor.word())?;
    let b = if cursor.passes(b':') {
        place(cursor.word())?
    } else {
        a
    };
    Ok(Area {
        first: Place {
            col: a.col.min(b.col),
            row: a.row.min(b.row),
        },
        last: Place {
            col: a.col.max(b.col),
            row: a.row.max(b.row),
        },
    })
}
