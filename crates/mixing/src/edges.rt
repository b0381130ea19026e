// The edges of a scheme as bits: from class to class with a tight lower entry above 0.
// `as` stands between `usize` and another width, for which there is no `From`, and where a number is proved to fit a narrower one: what `TryFrom`
// answers could only be unwrapped.
ghost use Rattle.std.specs.Prelude.{◌≡◌, ◌-◌, ◌≤◌, ltb, length};
ghost use Rattle.setchain.specs.Sums.{at};
ghost use Rattle.scheme.specs.Cause.{cause_of};
ghost use Rattle.mixing_spec.specs.MixingAnswer.{scheme_edges};
ghost use Rattle.mixing.specs.Bits.{bits_of, Holds};

use crate::matrix::Matrix;
use scheme::Scheme;

// The entries above 0, a bit each, the first the lowest.
fn entries_above_zero(entries: &[u64]) -> u32
    requires { length entries.now ≤ 32 }
    ensures { result ≡ bits_of (length entries.now) (λ j. ltb 0 (at entries.now j)) }
{
    let mut bits: u32 = 0;
    for entry in entries.iter().rev() {
        bits = bits * 2 + u32::from(0 < *entry);
    }
    bits
}

// The classes that a class of an accepted scheme has an edge to: such a class has a row.
fn class_edges(scheme: Scheme, class: u64) -> u32
    requires { (cause_of scheme ≡ 0) × (1 ≤ class) × (class ≤ scheme.classes) }
    ensures { result ≡ bits_of scheme.classes (scheme_edges scheme (class - 1)) }
{
    let n = usize::from(scheme.classes);
    let Ok(row) = rows::row(scheme, class) else {
        unreachable!()
    };
    entries_above_zero(&row.lower[..n])
}

// The edges of all classes, a row of bits for each.
pub fn edges(scheme: Scheme) -> Matrix
    requires { cause_of scheme ≡ 0 }
    ensures n { result.n ≡ scheme.classes }
    ensures rows { Holds scheme.classes result.rows (scheme_edges scheme) }
{
    let n = usize::from(scheme.classes);
    let mut rows = [0u32; 32];
    for (i, row) in rows[..n].iter_mut().enumerate() {
        *row = class_edges(scheme, i as u64 + 1);
    }
    Matrix { rows, n }
}
