// Numbers copied out of and into lent buffers: payoffs, the counts of books, and band ends.
#![tactic(auto)]

ghost use Rattle.std.specs.Prelude.{◌≡◌};
ghost use Rattle.joguyvi_spec.specs.Buffers.{copied_front, padded32};

// Copies the first numbers of a list, as many as the buffer has; where the list has fewer, the buffer is left as it was: the library's copy asks for equal lengths.
pub fn copy_front(from: &[u32], out: &mut [u32])
    ensures { out.new ≡ copied_front from.now out.old }
{
    if from.len() < out.len() {
        return;
    }
    out.copy_from_slice(&from[..out.len()]);
}

// The first 32 numbers of a list, with one for those that are missing; what lies beyond 32 is ignored.
pub fn padded_32<T: Copy>(numbers: &[T], missing: T) -> [T; 32]
    ensures { result ≡ padded32 missing numbers.now }
{
    let mut out = [missing; 32];
    let length = numbers.len().min(32);
    out[..length].copy_from_slice(&numbers[..length]);
    out
}
