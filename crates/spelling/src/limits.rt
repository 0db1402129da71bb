// How large the parts of commands and formulas may be.

pub const LONGEST_TEXT: u64 = 255;

pub const LONGEST_NAME: usize = 64;

// The bytes of a formula.
pub const LONGEST_FORMULA: usize = 1024;

// A formula and those in it, one in the other.
pub const DEEPEST_FORMULA: u8 = 32;

// What a function may be given.
pub const MOST_VALUES: u8 = 16;
