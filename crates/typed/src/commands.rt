// What stands behind the first word of a command.
use crate::fault::{Expected, Unreadable};
use crate::places::{DECIMALS, LETTERS, area, place};
use crate::reader::Reader;
use crate::scan::Word;
use spelling::kinds::{Axis, CommandKind, named};

// The row or the column that a word names, from 0.
fn line(axis: Axis, word: Word) -> Result<u64, Unreadable> {
    let (line, expected) = match axis {
        Axis::Columns => (
            LETTERS.line::<u8>(word.bytes).map(u64::from),
            Expected::Column,
        ),
        Axis::Rows => (
            DECIMALS.line::<u16>(word.bytes).map(u64::from),
            Expected::Row,
        ),
    };
    line.ok_or(expected.at(word.column))
}

fn how_many(axis: Axis, word: Word) -> Result<u64, Unreadable> {
    DECIMALS
        .with_digits(0, word.bytes)
        .filter(|many| 1 <= *many && *many <= axis.lines())
        .ok_or(Expected::HowMany.at(word.column))
}

impl<'a> Reader<'a> {
    // Rows or columns: from which on, and how many.
    fn read_lines(&mut self) -> Result<(), Unreadable> {
        let word = self.cursor.word();
        let axis: Axis = named(word.bytes).ok_or(Expected::RowsOrColumns.at(word.column))?;
        let at = line(axis, self.cursor.word())?;
        let many = how_many(axis, self.cursor.word())?;
        self.code.put(axis as u8);
        self.code.put_eight(at);
        self.code.put_eight(many);
        Ok(())
    }

    fn read_place(&mut self) -> Result<(), Unreadable> {
        self.code.put_place(place(self.cursor.word())?);
        Ok(())
    }

    fn read_area(&mut self) -> Result<(), Unreadable> {
        let found = area(&mut self.cursor)?;
        self.code.put_place(found.first);
        self.code.put_place(found.last);
        Ok(())
    }

    // What stands between the first word and the last part of a command.
    fn read_first(&mut self, kind: CommandKind) -> Result<(), Unreadable> {
        match kind {
            CommandKind::Set => self.read_place(),
            CommandKind::Name => self.read_name(),
            CommandKind::Copy => self.read_area(),
            _ => Ok(()),
        }
    }

    fn read_last(&mut self, kind: CommandKind) -> Result<(), Unreadable> {
        match kind {
            CommandKind::Set => self.read_formula(),
            CommandKind::Name => self.read_target(),
            CommandKind::Unname => self.read_name(),
            CommandKind::Wipe | CommandKind::Rows => self.read_area(),
            CommandKind::Show | CommandKind::Written | CommandKind::Copy => self.read_place(),
            CommandKind::Insert | CommandKind::Remove => self.read_lines(),
        }
    }

    // Reads a command from behind its first word up to the end of the line, and gives back the column at which the last part of it began.
    pub fn read_command(&mut self, kind: CommandKind) -> Result<usize, Unreadable> {
        self.code.put(kind as u8);
        self.read_first(kind)?;
        self.cursor.skip_blanks();
        let last = self.cursor.column;
        self.read_last(kind)?;
        self.cursor.must_end(match kind {
            CommandKind::Set => Expected::OperatorOrEnd,
            _ => Expected::End,
        })?;
        Ok(last)
    }
}
