// Numbers in lent bytes, big-endian, read and put at any place, and bytes copied from one slice to another.
// Where the bytes do not hold them, 0 is read, and what is to be put or copied leaves the bytes as they were.
// `as` stands between `usize` and another width, for which there is no `From`, and where a number is proved to fit a narrower one: what `TryFrom`
// answers could only be unwrapped.
#![tactic(auto)]

ghost use Rattle.std.specs.Prelude.{◌≡◌, ◌+◌, leb};
ghost use Rattle.big_endian_spec.specs.Numbers.{number_at, number_put, part_put};

// The most bytes of a number that is read: those of 32 bits.
pub const MOST_BYTES: usize = 4;

// Whether a length holds `width` bytes from place `at` on.
pub fn holds(length: usize, at: usize, width: usize) -> bool
    ensures { result ≡ leb (at + width) length }
{
    if length < width {
        return false;
    }
    at <= length - width
}

// The number in `width` bytes, or 0.
pub fn number_at(bytes: &[u8], at: usize, width: usize) -> u32
    ensures { result ≡ number_at width bytes.now at }
{
    if MOST_BYTES < width {
        return 0;
    }
    if !holds(bytes.len(), at, width) {
        return 0;
    }
    let mut number: u32 = 0;
    for byte in &bytes[at..at + width] {
        number = number * 256 + u32::from(*byte);
    }
    number
}

// Puts the low `width` bytes of x, the last one first, or leaves the bytes as they were.
// After `iter_mut().rev()` nothing is known of the slice, so the places are counted down.
pub fn put_number(out: &mut [u8], at: usize, width: usize, x: u32)
    ensures { out.new ≡ number_put width out.old at x }
{
    if !holds(out.len(), at, width) {
        return;
    }
    let mut rest = x;
    for k in (0..width).rev() {
        out[at + k] = (rest % 256) as u8;
        rest /= 256;
    }
}

// Copies n bytes to place `to`, or leaves the bytes as they were where either slice does not hold so many.
// n stands beside the slices, since the promise (`part_put`) is for every place and number, where they are too short as well.
pub fn copy(from: &[u8], at: usize, out: &mut [u8], to: usize, n: usize)
    ensures { out.new ≡ part_put n from.now at out.old to }
{
    if !holds(from.len(), at, n) {
        return;
    }
    if !holds(out.len(), to, n) {
        return;
    }
    out[to..to + n].copy_from_slice(&from[at..at + n]);
}
