// What the engine shows, turned into text: values and formulas, in the notation in which they are typed.
#![tactic(auto)]

mod formulas;
mod parts;
mod values;

use formulas::{Unprintable, formula};
use std::alloc::{AllocError, Global};
use values::Value;

// What is neither a value nor a formula is shown byte by byte, so that nothing is hidden.
fn raw_text(heap: Global, row: &[u8]) -> Result<String, AllocError> {
    let mut text = String::from_str(heap, "?")?;
    for b in row {
        write!(text, " {b:02x}")?;
    }
    Ok(text)
}

// A row that shows what a place is worth.
pub fn value_text(heap: Global, row: &[u8]) -> Result<String, AllocError> {
    match Value::read(row) {
        Some((value, [])) => value.to_string(heap),
        _ => raw_text(heap, row),
    }
}

// A row that shows what is written in a cell.
pub fn formula_text(heap: Global, row: &[u8]) -> Result<String, AllocError> {
    match formula(heap, row) {
        Ok(text) => Ok(text),
        Err(Unprintable::Malformed) => raw_text(heap, row),
        Err(Unprintable::Memory(why)) => Err(why),
    }
}
