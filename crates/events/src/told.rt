// What a step of an engine is answered with. The form is that of the interface in which whoever runs an engine is told of it,
// with numbers and the lent row alone.

// What the engine does next, or how the command ended. Where there are bytes, they stand in the lent row.
#[derive(Clone, Copy, Debug, PartialEq, Eq)]
pub enum Told {
    Read(u64),
    Store(u64),
    // A line.
    Settle(u64),
    // A row of so many bytes.
    Shows(u64),
    Done,
    No(u64),
}
