// What can be done to a device: reading, storing and settling a line, and a power failure.
ghost use Rattle.std.specs.Prelude.{◌≡◌, true, [], length, take, is_ok, IfOk, if◌then◌else◌, MatchOption};
ghost use Rattle.device.specs.Model.{device_of};
ghost use Rattle.device.specs.Stores.{stores_of};
ghost use Rattle.plain.specs.Device.{fresh, left, line_at, of_others, read_line, set_line, settled, so_many_of, stopped, storing};

use crate::memory::Device;
use crate::store::{LINE_BYTES, Store};
use std::alloc::{AllocError, Global};

// What says of a store in the cache that it had arrived when power failed. It stays a number: an `&[bool]` would ask more of callers, and the plain
// model's `stopped` takes numbers.
const ARRIVED: u8 = 1;

// With `resize`, as `vec!` promises of lines no more than that they are clones.
fn zeros(heap: Global, n: usize) -> Result<Vec<[u8; LINE_BYTES]>, AllocError>
    ensures { IfOk result (λ v. v.items ≡ so_many_of n (so_many_of 64 0)) }
{
    let mut all = Vec::new(heap);
    all.resize(n, [0; LINE_BYTES])?;
    Ok(all)
}

// Past the last line nothing is put. By index, as a proof knows no element after a `get_mut`.
fn put(lines: &mut [[u8; LINE_BYTES]], k: u64, line: [u8; LINE_BYTES])
    ensures { lines.new ≡ set_line lines.old k line }
{
    let i = k as usize;
    if i < lines.len() {
        lines[i] = line;
    }
}

// Makes a line what it is seen to be.
fn bring(lines: &mut [[u8; LINE_BYTES]], seen: &[[u8; LINE_BYTES]], k: u64)
    requires { length lines.old ≡ length seen.now }
    ensures { lines.new ≡ set_line lines.old k (line_at seen.now k) }
{
    if let Some(&line) = seen.get(k as usize) {
        put(lines, k, line);
    }
}

// Writes back the stores that had arrived, in turn: those for which there is a 1.
fn write_back(lines: &mut [[u8; LINE_BYTES]], cache: &[Store], arrived: &[u8])
    ensures { lines.new ≡ left lines.old (stores_of cache.now) arrived.now }
{
    for (store, &there) in cache.iter().zip(arrived) {
        if there == ARRIVED {
            put(lines, store.at, store.line);
        }
    }
}

impl Device {
    // So many lines, all 0.
    pub fn fresh(heap: Global, lines: usize) -> Result<Device, AllocError>
        ensures { IfOk result (λ d. device_of d ≡ fresh lines) }
    {
        Ok(Device {
            lines: zeros(heap, lines)?,
            seen: zeros(heap, lines)?,
            cache: Vec::new(heap),
        })
    }

    pub fn count(&self) -> usize
        ensures { result ≡ length (device_of self.now).lines }
    {
        self.lines.len()
    }

    // What whoever reads sees; past the last line, nothing.
    pub fn read(&self, k: u64) -> Option<[u8; LINE_BYTES]>
        ensures { MatchOption result (read_line (device_of self.now) k ≡ []) (λ p. read_line (device_of self.now) k ≡ p) }
    {
        self.seen.get(k as usize).copied()
    }

    // Without memory nothing is stored.
    pub fn store(&mut self, k: u64, line: [u8; LINE_BYTES]) -> Result<(), AllocError>
        ensures { device_of self.new ≡ (if is_ok result then storing (device_of self.old) k line else device_of self.old) }
    {
        self.cache.push(Store { at: k, line })?;
        put(&mut self.seen, k, line);
        Ok(())
    }

    // Brings the stores to a line there, so that a power failure does not lose them.
    pub fn settle(&mut self, k: u64)
        ensures { device_of self.new ≡ settled (device_of self.old) k }
    {
        bring(&mut self.lines, &self.seen, k);
        self.cache.retain(|store| store.at != k);
    }

    // Power fails: of the stores in the cache, in turn, those had arrived for which there is a 1, and the others are lost.
    pub fn stop(&mut self, arrived: &[u8])
        ensures { device_of self.new ≡ stopped (device_of self.old) arrived.now }
    {
        write_back(&mut self.lines, &self.cache, arrived);
        self.cache.clear();
        self.seen.copy_from_slice(&self.lines);
    }
}
