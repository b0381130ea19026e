// An interval row made tight (document 02, item 2).
ghost use Rattle.std.specs.Prelude.{◌≡◌, ◌-◌, ◌≤◌, length, Ok};
ghost use Rattle.setchain.specs.Sums.{at, sum_to};
ghost use Rattle.setchain.specs.Rows.{ONE, lists_row};
ghost use Rattle.setchain.specs.Tight.{tight_row};
ghost use Rattle.scheme.specs.RowAnswer.{row_answer_of, row_answered};
ghost use Rattle.scheme.specs.SumByTarget.{Capped};
ghost use Rattle.rows.specs.Rows.{TightPre, TightPost, TightenedPre};

use scheme::Row;

// What all entries but one leave of ONE, from their sum and that one; never below 0.
fn left_by_others(sum: u64, own: u64) -> u64
    ensures { result ≡ ONE - (sum - own) }
{
    setchain::ONE.saturating_sub(sum.saturating_sub(own))
}

// The sum of the entries of a row.
fn total(entries: &[u64]) -> u64
    requires { (length entries.now ≤ 32) × Capped entries.now }
    ensures { result ≡ sum_to (length entries.now) (at entries.now) }
{
    entries.iter().sum()
}

// Draws in each end as far as the other entries allow, both ends by the entries as they were.
fn tighten(lower: &mut [u64], upper: &mut [u64])
    requires { TightPre lower.old upper.old }
    ensures { TightPost lower.old upper.old lower.new upper.new }
{
    let lower_sum = total(lower);
    let upper_sum = total(upper);
    // By place: a loop over a zip with `iter_mut` was tried, and leaves no fact about the elements that it lent.
    for j in 0..lower.len() {
        let least = lower[j];
        let most = upper[j];
        lower[j] = least.max(left_by_others(upper_sum, most));
        upper[j] = most.min(left_by_others(lower_sum, least));
    }
}

// An interval row made tight.
pub fn tightened(interval: Row, classes: u8) -> Row
    requires { TightenedPre classes (row_answer_of (Ok interval)) }
    ensures { row_answer_of (Ok result) ≡ row_answered classes (tight_row classes (lists_row interval.lower interval.upper)) }
{
    let n = usize::from(classes);
    let mut lower = interval.lower;
    let mut upper = interval.upper;
    tighten(&mut lower[..n], &mut upper[..n]);
    Row { lower, upper }
}
