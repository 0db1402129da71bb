// An engine's memory, the row that it is lent, and its device.
ghost use Rattle.std.specs.Prelude.{◌≡◌, vec_len};

pub use crate::after::After;
use crate::end::End;
use device::memory::Device;

#[derive(Debug, Drop)]
pub struct Machine {
    pub(crate) device: Device,
    pub(crate) memory: Vec<u64>,
    pub(crate) row: Vec<u8>,
    ghost sizes: { (vec_len memory ≡ 262144) × (vec_len row ≡ 131072) },
}

// How a command went: the rows that it showed, how many lines it used, and how it ended.
#[derive(Debug, Drop)]
pub struct Ran {
    pub shown: Vec<Vec<u8>>,
    pub lines_used: u64,
    pub end: End,
}
