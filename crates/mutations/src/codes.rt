// The numbers that commands are spelled with, and their limits. They stand here again, since another reader shares none of them with the proved one.
// They stay numbers, since an enum is no plainer: they are matched as patterns beside positions and lengths, and it would first be made from each byte.

// The byte that a command begins with.
pub const SET: u8 = 1;

pub const WIPE: u8 = 2;

pub const SHOW: u8 = 3;

pub const ROWS: u8 = 4;

pub const WRITTEN: u8 = 5;

pub const NAME: u8 = 6;

pub const UNNAME: u8 = 7;

pub const INSERT: u8 = 8;

pub const REMOVE: u8 = 9;

pub const COPY: u8 = 10;

// The byte that a formula begins with.
pub const CONSTANT: u8 = 0;

pub const CELL: u8 = 1;

pub const CELLS: u8 = 2;

pub const NAMED: u8 = 3;

pub const GONE: u8 = 4;

pub const OPPOSITE: u8 = 5;

pub const OPERATOR: u8 = 6;

pub const FUNCTION: u8 = 7;

// The byte that a constant begins with.
pub const NUMBER: u8 = 1;

pub const TEXT: u8 = 2;

pub const TRUTH: u8 = 3;

pub const LAST_OPERATOR: u8 = 7;

pub const LAST_FUNCTION: u8 = 9;

pub const IF: u8 = 4;

pub const MOST_VALUES: u8 = 16;

pub const DEEPEST: u8 = 32;

pub const LONGEST_FORMULA: usize = 1024;

pub const LONGEST_TEXT: u64 = 255;

pub const LONGEST_NAME: u64 = 64;

pub const LAST_COLUMN: u64 = 255;

pub const LAST_ROW: u64 = 65535;

pub const MOST_PLACES: u64 = 4096;
// The most millionths.
pub const LARGEST: u64 = 4611686018427387903;
