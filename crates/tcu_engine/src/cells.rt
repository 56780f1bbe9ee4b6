//! Reads and writes of lists of numbers; past the end a read gives 0, and a write changes nothing.
ghost use Rattle.std.specs.Prelude.{◌≡◌, slice_index, slice_set};

use sqlite_items::Items;

/// The value at a place.
pub(crate) fn look(values: &[u32], at: usize) -> u32
    ensures { result ≡ slice_index values.now at }
{
    values.get(at).copied().unwrap_or(0)
}

/// Sets the value at a place.
pub(crate) fn put(values: &mut [u32], at: usize, value: u32)
    ensures { values.new ≡ slice_set values.old at value }
{
    if at < values.len() {
        values[at] = value;
    }
}

/// The same of a list of its own.
pub(crate) fn put_item(values: &mut Items<u32>, at: usize, value: u32)
    ensures { values.new ≡ slice_set values.old at value }
{
    if at < values.len() {
        values.set(at, value);
    }
}
