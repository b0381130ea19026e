// The values of a claim frequency, one claim more at a time, and the ends of the bands that they make. That a frequency is at most 1,000 stands in
// four contracts: a type of frequencies would be made for these calls alone.
// `as` stands between `usize` and another width, for which there is no `From`, and where a number is proved to fit a narrower one: what `TryFrom`
// answers could only be unwrapped.
ghost use Rattle.std.specs.Prelude.{◌≡◌, suc, ◌-◌, ◌≤◌, ◌<◌};
ghost use Rattle.setchain.specs.Rows.{ONE};
ghost use Rattle.poisson_spec.specs.Values.{value};
ghost use Rattle.poisson_spec.specs.Bands.{ends_of};

use crate::table;
use setchain::ONE;

// The value for no claim: the table's entry, or, for an upper one, the number above it, but for ONE.
fn start(high: bool, f: usize) -> u64
    requires { f ≤ 1000 }
    ensures { result ≡ value high f 0 }
{
    let entry = u64::from(table::entry(f));
    if !high {
        return entry;
    }
    ONE.min(entry + 1)
}

// The value for one claim more than k.
fn next(high: bool, f: usize, k: usize, before: u64) -> u64
    requires { (f ≤ 1000) × (k < 7) × (before ≡ value high f k) }
    ensures { result ≡ value high f (suc k) }
{
    rounding::round(before * (f as u64), 1000 * ((k + 1) as u64), high)
}

// The ends of all columns on one side: for no claim by the frequency `free`, for the other columns by `claimed`.
pub fn ends(high: bool, claimed: usize, free: usize, columns: usize) -> [u32; 8]
    requires { (claimed ≤ 1000) × (free ≤ 1000) × (2 ≤ columns) × (columns ≤ 8) }
    ensures { result ≡ ends_of high claimed free columns }
{
    let mut out = [0u32; 8];
    out[0] = start(high, free) as u32;
    let mut own = start(high, claimed);
    let mut other = start(!high, claimed);
    let mut sum = other;
    for k in 0..columns - 2 {
        own = next(high, claimed, k, own);
        other = next(!high, claimed, k, other);
        out[k + 1] = own as u32;
        sum += other;
    }
    out[columns - 1] = rest(sum);
    out
}

// What a sum leaves of ONE, and not below 0.
fn rest(sum: u64) -> u32
    ensures { result ≡ ONE - sum }
{
    ONE.saturating_sub(sum) as u32
}
