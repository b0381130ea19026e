// A matrix of bits: its products, and the test whether every bit is set.
// `as` stands between `usize` and another width, for which there is no `From`, and where a number is proved to fit a narrower one: what `TryFrom`
// answers could only be unwrapped.
ghost use Rattle.std.specs.Prelude.{◌≡◌, ◌≤◌, ◌<◌, eqb, length};
ghost use Rattle.setchain.specs.Sums.{at, only_if};
ghost use Rattle.setchain.specs.Tests.{all_below};
ghost use Rattle.scheme.specs.Laws.Filled.{Filled};
ghost use Rattle.mixing.specs.Bits.{all_bits, has_bit, union_of};

// A row where bit k of a set is set, and no bit where it is not.
fn row_if(set: u32, k: u32, row: u32) -> u32
    requires { k < 32 }
    ensures { result ≡ only_if (has_bit set k) row }
{
    if (set >> k) % 2 == 1 { row } else { 0 }
}

// The union of the rows that a set has.
fn union(set: u32, rows: &[u32]) -> u32
    requires { length rows.now ≤ 32 }
    ensures { result ≡ union_of (length rows.now) set (at rows.now) }
{
    let mut out: u32 = 0;
    for (k, row) in rows.iter().enumerate() {
        out |= row_if(set, k as u32, *row);
    }
    out
}

// A row with n bits set.
fn all_bits(n: usize) -> u32
    requires { n ≤ 32 }
    ensures { result ≡ all_bits n }
{
    ((1u64 << n) - 1) as u32
}

// A matrix of bits over n classes: the first n rows are its own.
#[derive(Clone, Copy)]
pub struct Matrix {
    pub rows: [u32; 32],
    pub n: usize,
    ghost few: { n ≤ 32 },
}

impl Matrix {
    // The product with a matrix over as many classes.
    pub fn product(&self, other: &Matrix) -> Matrix
        ensures n { result.n ≡ self.now.n }
        ensures rows { Filled 32 (λ i. union_of self.now.n (at self.now.rows i) (at other.now.rows)) self.now.n result.rows }
    {
        let n = self.n;
        let mut rows = [0u32; 32];
        for (i, row) in rows[..n].iter_mut().enumerate() {
            *row = union(self.rows[i], &other.rows[..n]);
        }
        Matrix { rows, n }
    }

    // Whether every bit is set.
    pub fn is_full(&self) -> bool
        ensures { result ≡ all_below self.now.n (λ i. eqb (at self.now.rows i) (all_bits self.now.n)) }
    {
        let full = all_bits(self.n);
        self.rows[..self.n].iter().all(|row| *row == full)
    }
}
