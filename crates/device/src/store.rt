// A store to a line, which waits in the cache until the line is settled or the cache writes it back.
// `lines` has the same for itself: neither crate stands on the other.
pub const LINE_BYTES: usize = 64;

#[derive(Clone, Copy, Debug, PartialEq, Eq)]
pub struct Store {
    pub at: u64,
    pub line: [u8; LINE_BYTES],
}
