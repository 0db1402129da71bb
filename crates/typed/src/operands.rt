// The words that a formula is made of: places, areas, names and keywords.
ghost use Rattle.typed.specs.Sizes.{Grows};

use crate::fault::{Expected, Unreadable};
use crate::places::{has_shape_of_place, reference};
use crate::reader::Reader;
use crate::scan::Word;
use crate::words::Keyword;
use spelling::kinds::{ConstantKind, FormulaKind, named};
use spelling::name::is_name;

// Whether a formula takes the word for a name with no @ before it, if it is one.
fn is_plain(word: &[u8]) -> bool {
    !word.first().is_some_and(u8::is_ascii_digit)
        && !has_shape_of_place(word)
        && named::<Keyword>(word).is_none()
}

impl<'a> Reader<'a> {
    fn put_name(&mut self, word: Word) -> Result<(), Unreadable>
        ensures { Grows self.old.code self.new.code }
    {
        if !is_name(word.bytes) {
            return Err(Expected::Name.at(word.column));
        }
        self.code.put_counted(word.bytes);
        Ok(())
    }

    // The name of a command: a word that a formula would take for it, or any with an @ before it.
    pub fn read_name(&mut self) -> Result<(), Unreadable> {
        let marked = self.cursor.passes(b'@');
        let word = self.cursor.word();
        if !marked && !is_plain(word.bytes) {
            return Err(Expected::Name.at(word.column));
        }
        self.put_name(word)
    }

    // The name in a formula, with the @ before it.
    pub fn read_named(&mut self) -> Result<(), Unreadable>
        ensures { Grows self.old.code self.new.code }
    {
        let _at = self.cursor.byte();
        let word = self.cursor.word();
        self.put_named(word)
    }

    fn put_named(&mut self, word: Word) -> Result<(), Unreadable>
        ensures { Grows self.old.code self.new.code }
    {
        self.code.put(FormulaKind::Named as u8);
        self.put_name(word)
    }

    // A place, or an area by two of its corners, of which the word is the first.
    fn put_target(&mut self, word: Word) -> Result<(), Unreadable>
        ensures { Grows self.old.code self.new.code }
    {
        let first = reference(word)?;
        if self.cursor.passes(b':') {
            let last = reference(self.cursor.word())?;
            self.code.put(FormulaKind::Area as u8);
            self.code.put_reference(first);
            self.code.put_reference(last);
        } else {
            self.code.put(FormulaKind::Cell as u8);
            self.code.put_reference(first);
        }
        Ok(())
    }

    // What a name stands for.
    pub fn read_target(&mut self) -> Result<(), Unreadable> {
        let word = self.cursor.word();
        self.put_target(word)
    }

    // What a word says in a formula, where it is no function.
    pub fn read_word(&mut self, word: Word) -> Result<(), Unreadable>
        ensures { Grows self.old.code self.new.code }
    {
        if word.bytes.is_empty() {
            return Err(Expected::Formula.at(word.column));
        }
        if has_shape_of_place(word.bytes) {
            return self.put_target(word);
        }
        match named(word.bytes) {
            Some(Keyword::Truth(truth)) => {
                self.code.put_constant(ConstantKind::Truth);
                self.code.put(u8::from(truth));
                Ok(())
            }
            Some(Keyword::Gone) => {
                self.code.put(FormulaKind::Gone as u8);
                Ok(())
            }
            None => self.put_named(word),
        }
    }
}
