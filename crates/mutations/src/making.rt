// Commands of every kind, most of them well formed, with their numbers at the edges of what fits now and then.
use crate::codes::*;
use crate::dice::Dice;
use arrayvec::ArrayVec;

// How many bytes find room; the longest command of a run has 1,174.
const ROOM: usize = 4096;

// One less than the sides of a box of as many places as may be shown.
const WIDE: u8 = 15;

const HIGH: u64 = 255;
// How many formulas have others in them, and how many minuses a deep formula has at least.
const INNER: u64 = 8;

const MINUSES: u64 = 28;
// Four texts make a formula of about as many bytes as it may have: three of the longest, and one of at least so many bytes.
const FOURTH: u64 = 214;

// What makes commands, one after the other.
#[derive(Debug, Drop)]
pub struct Maker {
    pub(super) dice: Dice,
    // The command that is being made, and the one before it.
    pub(super) code: ArrayVec<u8, ROOM>,
    pub(super) last: ArrayVec<u8, ROOM>,
}

impl Maker {
    pub fn new(seed: u64) -> Maker {
        Maker {
            dice: Dice::new(seed),
            code: ArrayVec::new(),
            last: ArrayVec::new(),
        }
    }

    // What finds no room is left out.
    fn push(&mut self, byte: u8) {
        let _full = self.code.try_push(byte);
    }

    // All of these bytes, or none where they find no room.
    fn append(&mut self, bytes: &[u8]) {
        let _full = self.code.try_extend_from_slice(bytes);
    }

    // Eight bytes, the highest first.
    fn number(&mut self, n: u64) {
        self.append(&n.to_be_bytes());
    }

    fn place(&mut self) {
        let col = self.dice.byte();
        let row = self.dice.near(LAST_ROW);
        self.push(col);
        self.number(row);
    }

    fn reference(&mut self) {
        self.place();
        let fix_col = u8::from(self.dice.flag());
        let fix_row = u8::from(self.dice.flag());
        self.append(&[fix_col, fix_row]);
    }

    fn cell(&mut self) {
        self.push(CELL);
        self.reference();
    }

    fn cells(&mut self) {
        self.push(CELLS);
        self.reference();
        self.reference();
    }

    // A box; its corners are the wrong way round if its columns go past the last one.
    fn area(&mut self) {
        let left = self.dice.byte();
        let top = self.dice.near(LAST_ROW);
        self.push(left);
        self.number(top);
        let wide = if self.dice.flag() {
            self.dice.byte()
        } else {
            WIDE
        };
        self.push(left.wrapping_add(wide));
        let bottom = top + HIGH - 1 + self.dice.below(3);
        self.number(bottom);
    }

    fn text(&mut self, long: u64) {
        self.number(long);
        for _ in 0..long {
            let letter = b'a' + self.dice.below(26) as u8;
            self.push(letter);
        }
    }

    fn name(&mut self) {
        let long = 1 + self.dice.near(LONGEST_NAME - 1);
        self.text(long);
    }

    fn constant(&mut self) {
        match self.dice.below(3) {
            0 => {
                let below_zero = u8::from(self.dice.flag());
                self.append(&[CONSTANT, NUMBER, below_zero]);
                let millionths = self.dice.near(LARGEST);
                self.number(millionths);
            }
            1 => {
                self.append(&[CONSTANT, TEXT]);
                let long = self.dice.near(LONGEST_TEXT);
                self.text(long);
            }
            _ => {
                let truth = u8::from(self.dice.flag());
                self.append(&[CONSTANT, TRUTH, truth]);
            }
        }
    }

    // A formula with no other in it: mostly one of the core.
    fn leaf(&mut self) {
        match self.dice.below(16) {
            0 => self.cells(),
            1 => {
                self.push(NAMED);
                self.name();
            }
            2 => self.push(GONE),
            3..=8 => self.cell(),
            _ => self.constant(),
        }
    }

    fn function(&mut self) -> u64 {
        let which = if self.dice.flag() {
            self.dice.near(LAST_FUNCTION as u64) as u8
        } else {
            IF
        };
        let many = self.dice.near(MOST_VALUES as u64);
        self.append(&[FUNCTION, which, many as u8]);
        many
    }

    // The front of a formula with others in it: how many.
    fn inner(&mut self) -> u64 {
        match self.dice.below(4) {
            0 => {
                self.push(OPPOSITE);
                1
            }
            1 => self.function(),
            _ => {
                let which = self.dice.near(LAST_OPERATOR as u64) as u8;
                self.append(&[OPERATOR, which]);
                2
            }
        }
    }

    // Fronts of formulas in one another: how many formulas are still to follow.
    fn inners(&mut self) -> u64 {
        let mut awaited = 1u64;
        for _ in 0..self.dice.below(INNER) {
            if awaited > 0 {
                awaited = awaited.wrapping_sub(1).wrapping_add(self.inner());
            }
        }
        awaited
    }

    fn minuses(&mut self) {
        for _ in 0..MINUSES + self.dice.below(6) {
            self.push(OPPOSITE);
        }
    }

    fn long_formula(&mut self) {
        self.append(&[FUNCTION, IF, 4]);
        let fourth = FOURTH + self.dice.below(5);
        for long in [LONGEST_TEXT, LONGEST_TEXT, LONGEST_TEXT, fourth] {
            self.append(&[CONSTANT, TEXT]);
            self.text(long);
        }
    }

    fn formula(&mut self) {
        match self.dice.below(16) {
            0 => return self.long_formula(),
            1 | 2 => self.minuses(),
            _ => {}
        }
        for _ in 0..self.inners() {
            self.leaf();
        }
    }

    fn stretch(&mut self) {
        let rows = self.dice.flag();
        let last = if rows { LAST_ROW } else { LAST_COLUMN };
        self.push(u8::from(rows));
        let first = self.dice.near(last);
        self.number(first);
        let many = self.dice.near(last) + 1;
        self.number(many);
    }

    // What a name stands for.
    fn target(&mut self) {
        if self.dice.flag() {
            self.cells();
        } else {
            self.cell();
        }
    }

    // What stands behind the first byte of a command.
    fn parts(&mut self, kind: u8) {
        match kind {
            SET => {
                self.place();
                self.formula();
            }
            WIPE | ROWS => self.area(),
            SHOW | WRITTEN => self.place(),
            NAME => {
                self.name();
                self.target();
            }
            UNNAME => self.name(),
            INSERT | REMOVE => self.stretch(),
            _ => {
                self.area();
                self.place();
            }
        }
    }

    // Adds a command of any kind; half of them set a cell.
    pub(super) fn command(&mut self) {
        let kind = if self.dice.flag() {
            SET + self.dice.below(COPY as u64) as u8
        } else {
            SET
        };
        self.push(kind);
        self.parts(kind);
    }
}
