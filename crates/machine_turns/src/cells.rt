//! Reads and writes of lists of numbers; past the end a read gives 0, and a write changes nothing.
ghost use Rattle.std.specs.Prelude.{◌≡◌, take, drop, slice_index, slice_set};

/// The value in a place.
pub(crate) fn look(values: &[u32], at: usize) -> u32
    ensures { result ≡ slice_index values.now at }
{
    values.get(at).copied().unwrap_or(0)
}

/// Writes a value in a place.
pub(crate) fn put(values: &mut [u32], at: usize, value: u32)
    ensures { values.new ≡ slice_set values.old at value }
{
    if at < values.len() {
        values[at] = value;
    }
}

/// The values behind the first n.
pub(crate) fn behind(values: &[u32], n: usize) -> &[u32]
    ensures { result.now ≡ drop n values.now }
{
    if n < values.len() { &values[n..] } else { &[] }
}

/// The first n values.
pub(crate) fn front(values: &[u32], n: usize) -> &[u32]
    ensures { result.now ≡ take n values.now }
{
    if n < values.len() {
        &values[..n]
    } else {
        values
    }
}
