// A device of lines behind a cache, as a power failure can leave it: lines that are there, and stores in the order in which they came.
ghost use Rattle.std.specs.Prelude.{◌≡◌};
ghost use Rattle.device.specs.Stores.{stores_of};
ghost use Rattle.plain.specs.Device.{all_stored};

use crate::store::{LINE_BYTES, Store};

// `seen` is what whoever reads sees: the lines with all stores of the cache in them.
// Two lists and not one of pairs: a stop copies the lines over what is seen as a whole, and the model speaks of whole lists.
#[derive(Debug, Drop)]
pub struct Device {
    pub(crate) lines: Vec<[u8; LINE_BYTES]>,
    pub(crate) seen: Vec<[u8; LINE_BYTES]>,
    pub(crate) cache: Vec<Store>,
    ghost seen_is: { seen.items ≡ all_stored lines.items (stores_of cache.items) },
}
