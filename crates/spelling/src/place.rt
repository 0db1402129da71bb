// Places on the sheet, the boxes between two of them, and references to a place.
ghost use Rattle.std.specs.Prelude.{◌≡◌, suc, ◌-◌};
ghost use Rattle.plain.specs.Read.{read_box, read_place, read_ref};
ghost use Rattle.spelling.specs.Meaning.{Reads, box_of, place_of, ref_of};

use crate::bytes::{flag, number, one};

// Columns and rows count from 0.
#[derive(Clone, Copy, Debug, PartialEq, Eq)]
pub struct Place {
    pub col: u8,
    pub row: u16,
}

// A box of places, from its first corner to its last, both in it.
#[derive(Clone, Copy, Debug, PartialEq, Eq)]
pub struct Area {
    pub first: Place,
    pub last: Place,
}

// A place that a formula refers to; what is fixed stays when the formula is copied.
#[derive(Clone, Copy, Debug, PartialEq, Eq)]
pub struct Reference {
    pub place: Place,
    pub fix_col: bool,
    pub fix_row: bool,
}

impl Place {
    pub fn read(bytes: &[u8]) -> Option<(Place, &[u8])>
        ensures { Reads place_of (read_place bytes.now) result }
    {
        let (col, rest) = one(bytes)?;
        let (row, rest) = number(rest)?;
        let row = u16::try_from(row).ok()?;
        Some((Place { col, row }, rest))
    }
}

impl Area {
    // Each side has a type of its own, since a box may have more rows than sixteen bits can count.
    pub fn columns(self) -> u16
        ensures { result ≡ suc (self.last.col - self.first.col) }
    {
        u16::from(self.last.col.saturating_sub(self.first.col)) + 1
    }

    pub fn rows(self) -> u32
        ensures { result ≡ suc (self.last.row - self.first.row) }
    {
        u32::from(self.last.row.saturating_sub(self.first.row)) + 1
    }

    pub fn read(bytes: &[u8]) -> Option<(Area, &[u8])>
        ensures { Reads box_of (read_box bytes.now) result }
    {
        let (first, rest) = Place::read(bytes)?;
        let (last, rest) = Place::read(rest)?;
        if first.col > last.col || first.row > last.row {
            return None;
        }
        Some((Area { first, last }, rest))
    }
}

impl Reference {
    pub fn read(bytes: &[u8]) -> Option<(Reference, &[u8])>
        ensures { Reads ref_of (read_ref bytes.now) result }
    {
        let (place, rest) = Place::read(bytes)?;
        let (fix_col, rest) = flag(rest)?;
        let (fix_row, rest) = flag(rest)?;
        Some((
            Reference {
                place,
                fix_col,
                fix_row,
            },
            rest,
        ))
    }
}
