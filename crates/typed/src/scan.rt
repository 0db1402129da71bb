// Going through a line from its front: words, runs of bytes of one kind, and marks.
use crate::fault::{Expected, Unreadable};
use spelling::name::is_name_byte;

// What words are made of: what names are, and the $ of a fixed place.
fn is_word_byte(b: &u8) -> bool {
    is_name_byte(*b) || *b == b'$'
}

// A word, perhaps of no bytes, and the column at which it stands.
#[derive(Clone, Copy, Debug, PartialEq, Eq)]
pub struct Word<'a> {
    pub bytes: &'a [u8],
    pub column: usize,
}

// What of a line is still to be read, and the column at which it begins.
#[derive(Clone, Copy, Debug, PartialEq, Eq)]
pub struct Cursor<'a> {
    rest: &'a [u8],
    pub column: usize,
}

impl<'a> Cursor<'a> {
    pub fn new(line: &'a [u8]) -> Cursor<'a> {
        Cursor {
            rest: line,
            column: 1,
        }
    }

    pub fn rest(&self) -> &'a [u8] {
        self.rest
    }

    // Takes so many bytes, or all that are left.
    #[inline(always)]
    pub fn take(&mut self, n: usize) -> &'a [u8] {
        let n = n.min(self.rest.len());
        let (front, rest) = self.rest.split_at(n);
        self.rest = rest;
        self.column = self.column.wrapping_add(n);
        front
    }

    // Takes the bytes at the front that are such. Inlined, with `take`: most runs are a byte or two, and a reference is made of four.
    #[inline(always)]
    pub fn run<F: Fn(&u8) -> bool>(&mut self, is_such: F) -> &'a [u8]
        requires { F.IsAlwaysCallable is_such }
    {
        let n = self.rest.iter().take_while(|b| is_such(*b)).count();
        self.take(n)
    }

    pub fn skip_blanks(&mut self) {
        let _ = self.run(u8::is_ascii_whitespace);
    }

    // Takes the word that comes next behind blanks.
    pub fn word(&mut self) -> Word<'a> {
        self.skip_blanks();
        let column = self.column;
        Word {
            bytes: self.run(is_word_byte),
            column,
        }
    }

    // Takes the next byte.
    pub fn byte(&mut self) -> Option<u8> {
        let (first, rest) = self.rest.split_first()?;
        self.rest = rest;
        self.column = self.column.wrapping_add(1);
        Some(*first)
    }

    // Takes the next byte if it is this one, and says whether it was.
    pub fn takes(&mut self, mark: u8) -> bool {
        self.rest.first() == Some(&mark) && self.byte().is_some()
    }

    // The same behind blanks.
    pub fn passes(&mut self, mark: u8) -> bool {
        self.skip_blanks();
        self.takes(mark)
    }

    // Whether nothing but blanks is left.
    pub fn ends(&mut self) -> bool {
        self.skip_blanks();
        self.rest.is_empty()
    }

    // Refuses a line that goes on.
    pub fn must_end(&mut self, expected: Expected) -> Result<(), Unreadable> {
        if self.ends() {
            Ok(())
        } else {
            Err(expected.at(self.column))
        }
    }
}
