// A command on its way from a line to its bytes. The methods stand where its parts are read: commands, formulas, operands, constants.
use crate::code::Code;
use crate::scan::Cursor;
use std::alloc::Global;

#[derive(Debug, Drop)]
pub struct Reader<'a> {
    // What of the line is still to be read.
    pub cursor: Cursor<'a>,
    // What is spelled of the command so far.
    pub code: Code,
}

impl<'a> Reader<'a> {
    // A reader that goes on from there, and has spelled nothing yet.
    pub fn new(heap: Global, cursor: Cursor<'a>) -> Reader<'a> {
        Reader {
            cursor,
            code: Code::new(heap),
        }
    }
}
