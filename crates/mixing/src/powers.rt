// The first count of years that mixes, found between two powers of 2: once a count mixes, every later one does.
ghost use Rattle.std.specs.Prelude.{◌≡◌, [], get_or};
ghost use Rattle.setchain.specs.Tests.{first_from};
ghost use Rattle.setchain.specs.Mixing.{mixes};
ghost use Rattle.mixing.specs.Bits.{all_bits, bit_edges, Holds};
ghost use Rattle.mixing.specs.Matrices.{rows_of, size_of, SameSize};
ghost use Rattle.mixing.specs.Powers.{counted, LastPost, LastPre, SquaresPost, SquaresPre};

use crate::matrix::Matrix;

// 1,024 years are 2 to this power.
const LAST: usize = 10;

// Stores the matrices of 2, 4, 8 years and so on behind the first, each the square of the one before it, until one mixes, and answers how many do not mix.
// A count, and no Option: `SquaresPost` says the same of LAST + 1 as of every other.
fn store_squares(squares: &mut [Matrix; LAST + 1]) -> usize
    requires { (SameSize (size_of squares.old) squares.old) × SquaresPre (size_of squares.old) (all_bits (size_of squares.old)) (rows_of squares.old) }
    ensures sizes { SameSize (size_of squares.old) squares.new }
    ensures rows { SquaresPost (size_of squares.old) (get_or (rows_of squares.old) 0 []) result (rows_of squares.new) }
{
    for k in 0..LAST {
        let power = &squares[k];
        if power.is_full() {
            return k;
        }
        squares[k + 1] = power.product(power);
    }
    if squares[LAST].is_full() {
        LAST
    } else {
        LAST + 1
    }
}

// The last count of years that does not mix, where 2 to the power of `levels` mixes and half as many years do not: each smaller square is tried once, the largest first.
fn last_not_mixing(squares: &[Matrix; LAST + 1], levels: usize) -> u64
    requires { (SameSize (size_of squares.now) squares.now) × LastPre (size_of squares.now) (all_bits (size_of squares.now)) levels (rows_of squares.now) }
    ensures { LastPost (size_of squares.now) (get_or (rows_of squares.now) 0 []) result }
{
    let mut within = squares[levels - 1];
    let mut count: u64 = 1 << (levels - 1);
    for k in (0..levels - 1).rev() {
        let step = &squares[k];
        let further = within.product(step);
        if !further.is_full() {
            within = further;
            count += 1 << k;
        }
    }
    count
}

// The first count of years, 1 to 1,024, that mixes a matrix of edges, if any does.
pub fn first_count(edges: Matrix) -> Option<u64>
    requires { Holds edges.n edges.rows (bit_edges edges.rows) }
    ensures { result ≡ counted (first_from 1024 1 (mixes edges.n (bit_edges edges.rows))) }
{
    // The edges stand in each place at first, so that every matrix is over as many classes.
    let mut squares = [edges; LAST + 1];
    let levels = store_squares(&mut squares);
    if levels == 0 {
        return Some(1);
    }
    if LAST < levels {
        return None;
    }
    Some(last_not_mixing(&squares, levels) + 1)
}
