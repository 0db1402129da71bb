// Another reader of commands, to hold the proved one to. It goes by positions and whole lengths, and not by what is left of the bytes.
// It has no recursion: a formula is cut into fronts from its first byte on, and its depth is found from the last front back.
// Positions are added up with wrapping, since none comes near the largest number.
use crate::codes::*;
use arrayvec::ArrayVec;
use spelling::place::{Area, Place};
use std::iter::successors;

// The whole length of a command with one place, two, a stretch of rows or columns, or a box and a place.
const ONE_PLACE: usize = 10;

const TWO_PLACES: usize = 19;

const STRETCH: usize = 18;

const THREE_PLACES: usize = 28;
// Where a formula begins, and how many bytes a place and a reference have.
const FORMULA: usize = 10;

const PLACE: usize = 9;

const REFERENCE: usize = 11;

// A byte for each front of a formula. Each front takes a byte at least, so that the longest formula finds room.
type FrontBytes = ArrayVec<u8, LONGEST_FORMULA>;

#[derive(Clone, Copy, Debug, PartialEq, Eq)]
pub enum Verdict {
    Core,
    Other,
    Malformed,
}

// Where the formulas in a formula begin, how many they are, and whether it is of the core but for them.
#[derive(Clone, Copy, Debug, PartialEq, Eq)]
struct Front<'a> {
    end: At<'a>,
    holds: u8,
    core: bool,
}

// A position among the bytes of a command.
#[derive(Clone, Copy, Debug, PartialEq, Eq)]
pub struct At<'a> {
    bytes: &'a [u8],
    at: usize,
}

// How many there are from the first to the last; none if these are the wrong way round.
fn span(first: u64, last: u64) -> Option<u64> {
    last.checked_sub(first)?.checked_add(1)
}

// How many places a box has.
fn places(area: Area) -> Option<u64> {
    let wide = span(u64::from(area.first.col), u64::from(area.last.col))?;
    wide.checked_mul(span(u64::from(area.first.row), u64::from(area.last.row))?)
}

fn is_word(text: &[u8]) -> bool {
    !text.is_empty() && text.iter().all(|b| b.is_ascii_alphanumeric() || *b == b'_')
}

impl<'a> At<'a> {
    pub fn start(bytes: &'a [u8]) -> At<'a> {
        At { bytes, at: 0 }
    }

    pub fn after(self, many: usize) -> At<'a> {
        At {
            bytes: self.bytes,
            at: self.at.wrapping_add(many),
        }
    }

    fn is_end(self) -> bool {
        self.at == self.bytes.len()
    }

    pub fn byte(self) -> Option<u8> {
        self.bytes.get(self.at).copied()
    }

    fn eight(self) -> Option<u64> {
        let (eight, _) = self.bytes.get(self.at..)?.split_first_chunk::<8>()?;
        Some(u64::from_be_bytes(*eight))
    }

    fn is_byte(self, last: u8) -> bool {
        self.byte().is_some_and(|b| b <= last)
    }

    fn is_number(self, first: u64, last: u64) -> bool {
        self.eight().is_some_and(|n| first <= n && n <= last)
    }

    pub fn place(self) -> Option<Place> {
        Some(Place {
            col: self.byte()?,
            row: u16::try_from(self.after(1).eight()?).ok()?,
        })
    }

    // Two corners of a box, the upper left one first.
    pub fn area(self) -> Option<Area> {
        let first = self.place()?;
        let last = self.after(PLACE).place()?;
        (first.col <= last.col && first.row <= last.row).then_some(Area { first, last })
    }

    fn is_reference(self) -> bool {
        self.place().is_some() && self.after(9).is_byte(1) && self.after(10).is_byte(1)
    }

    // Where a text with its length before it ends.
    fn text(self, longest: u64) -> Option<At<'a>> {
        let long = self.eight().filter(|long| *long <= longest)?;
        Some(self.after(8).after(long as usize)).filter(|end| end.at <= self.bytes.len())
    }

    fn name(self) -> Option<At<'a>> {
        let end = self.text(LONGEST_NAME)?;
        is_word(self.bytes.get(self.after(8).at..end.at)?).then_some(end)
    }

    fn is_millionths(self) -> bool {
        match self.byte() {
            Some(0) => self.after(1).is_number(0, LARGEST),
            // one more below zero
            Some(1) => self.after(1).is_number(0, LARGEST - 1),
            _ => false,
        }
    }

    fn constant(self) -> Option<At<'a>> {
        let next = self.after(1);
        match self.byte()? {
            NUMBER if next.is_millionths() => Some(self.after(10)),
            TEXT => next.text(LONGEST_TEXT),
            TRUTH if next.is_byte(1) => Some(self.after(2)),
            _ => None,
        }
    }

    fn leaf(self, tag: u8) -> Option<At<'a>> {
        let next = self.after(REFERENCE);
        match tag {
            CONSTANT => self.constant(),
            CELL if self.is_reference() => Some(next),
            CELLS if self.is_reference() && next.is_reference() => Some(next.after(REFERENCE)),
            NAMED => self.name(),
            GONE => Some(self),
            _ => None,
        }
    }

    fn function(self) -> Option<Front<'a>> {
        let which = self.byte().filter(|which| *which <= LAST_FUNCTION)?;
        let holds = self.after(1).byte().filter(|holds| *holds <= MOST_VALUES)?;
        Some(Front {
            end: self.after(2),
            holds,
            core: which == IF,
        })
    }

    fn front(self) -> Option<Front<'a>> {
        let next = self.after(1);
        match self.byte()? {
            OPPOSITE => Some(Front {
                end: next,
                holds: 1,
                core: true,
            }),
            OPERATOR if next.is_byte(LAST_OPERATOR) => Some(Front {
                end: next.after(1),
                holds: 2,
                core: true,
            }),
            FUNCTION => next.function(),
            tag => Some(Front {
                end: next.leaf(tag)?,
                holds: 0,
                core: tag <= CELL,
            }),
        }
    }

    fn is_stretch(self) -> bool {
        let last = match self.byte() {
            Some(0) => LAST_COLUMN,
            Some(1) => LAST_ROW,
            _ => return false,
        };
        self.after(1).is_number(0, last) && self.after(9).is_number(1, last + 1)
    }

    // Where a cell or cells end.
    fn target(self) -> Option<At<'a>> {
        let tag = self.byte().filter(|tag| matches!(*tag, CELL..=CELLS))?;
        self.after(1).leaf(tag)
    }

    fn is_naming(self) -> bool {
        self.name()
            .and_then(|end| end.target())
            .is_some_and(|end| end.is_end())
    }
}

// Takes so many depths off: the largest.
fn deepest(depths: &mut FrontBytes, many: u8) -> Option<u8> {
    let at = depths.len().checked_sub(usize::from(many))?;
    Some(depths.drain(at..).max().unwrap_or(0))
}

// How deep the formula is whose fronts have so many formulas in them; none if they are not one formula.
fn depth(held: &[u8]) -> Option<u8> {
    let mut depths = FrontBytes::new();
    for many in held.iter().rev() {
        let most = deepest(&mut depths, *many)?;
        let _full = depths.try_push(most.saturating_add(1));
    }
    match depths.as_slice() {
        [depth] => Some(*depth),
        _ => None,
    }
}

// A formula that goes to the end.
fn formula(start: At) -> Verdict {
    let mut held = FrontBytes::new();
    let mut end = start;
    let mut core = true;
    for front in successors(start.front(), |front| front.end.front()).take(LONGEST_FORMULA) {
        let _full = held.try_push(front.holds);
        core &= front.core;
        end = front.end;
    }
    if !end.is_end() {
        return Verdict::Malformed;
    }
    match depth(held.as_slice()) {
        Some(1..=DEEPEST) if core => Verdict::Core,
        Some(1..=DEEPEST) => Verdict::Other,
        _ => Verdict::Malformed,
    }
}

fn set(start: At) -> Verdict {
    if start.after(1).place().is_none() || start.bytes.len() > FORMULA + LONGEST_FORMULA {
        return Verdict::Malformed;
    }
    formula(start.after(FORMULA))
}

fn is_core(start: At) -> bool {
    let parts = start.after(1);
    match (start.byte(), start.bytes.len()) {
        (Some(WIPE), TWO_PLACES) => parts.area().is_some(),
        (Some(SHOW | WRITTEN), ONE_PLACE) => parts.place().is_some(),
        (Some(ROWS), TWO_PLACES) => matches!(parts.area().and_then(places), Some(1..=MOST_PLACES)),
        _ => false,
    }
}

fn is_other(start: At) -> bool {
    let parts = start.after(1);
    match (start.byte(), start.bytes.len()) {
        (Some(NAME), _) => parts.is_naming(),
        (Some(UNNAME), _) => parts.name().is_some_and(|end| end.is_end()),
        (Some(INSERT | REMOVE), STRETCH) => parts.is_stretch(),
        (Some(COPY), THREE_PLACES) => {
            parts.area().is_some() && start.after(TWO_PLACES).place().is_some()
        }
        _ => false,
    }
}

pub fn judge(bytes: &[u8]) -> Verdict {
    let start = At::start(bytes);
    if start.byte() == Some(SET) {
        set(start)
    } else if is_core(start) {
        Verdict::Core
    } else if is_other(start) {
        Verdict::Other
    } else {
        Verdict::Malformed
    }
}
