// What a stage asks for: one act on the device, or a row to be shown.
use crate::line::Line;
use crate::row::Row;

#[derive(Clone, Copy, Debug, PartialEq, Eq)]
pub enum Act {
    Read(u64),
    Store(u64, Line),
    Settle(u64),
    Show(Row),
}
