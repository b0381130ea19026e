// The interval rows of document 01, and the tight rows of document 02, item 2.
#![tactic(auto)]

ghost use Rattle.std.specs.Prelude.{◌≡◌, length};
ghost use Rattle.scheme.specs.RowAnswer.{row_answer_of, interval_answer, row_answer};
ghost use Rattle.rows.specs.Rows.{copied_into};
ghost use Rattle.scheme.specs.Tables.{tab};
ghost use Rattle.scheme.specs.SumByTarget.{sum_by_target, added_to_target, slack_of, Capped};

pub use scheme::Row;
use scheme::{Cause, Scheme};

mod rows;
mod tight;

// The row of a class: its interval row made tight.
pub fn row(scheme: Scheme, class: u64) -> Result<Row, Cause>
    ensures { row_answer_of result ≡ row_answer scheme class }
{
    let interval = interval_row(scheme, class)?;
    Ok(tight::tightened(interval, scheme.classes))
}

// The interval row of a class, on which all figures rest.
pub fn interval_row(scheme: Scheme, class: u64) -> Result<Row, Cause>
    ensures { row_answer_of result ≡ interval_answer scheme class }
{
    acceptance::check(scheme)?;
    if scheme::class_out(scheme.classes, class) {
        return Err(Cause::Class);
    }
    Ok(rows::answered(scheme, class))
}

// The entries that the cells of one class make, over slices.

// The entry of the class that a rule leads to, with the end of its band added, at most ONE.
fn add_to_target(out: &mut [u64], rule: u8, end: u32)
    requires { Capped out.old }
    ensures { out.new ≡ added_to_target out.old rule end }
{
    let class = usize::from(rule);
    if (1..=out.len()).contains(&class) {
        out[class - 1] = setchain::ONE.min(out[class - 1] + u64::from(end));
    }
}

// For each class, what the bands of the cells that lead to it come to, at most ONE.
pub fn sum_by_target(rules: &[u8], band: &[u32], out: &mut [u64])
    ensures { out.new ≡ tab (length out.old) (sum_by_target rules.now band.now) }
{
    out.fill(0);
    for (rule, end) in rules.iter().zip(band) {
        add_to_target(out, *rule, *end);
    }
}

// The parts of ONE that the lower entries of a row leave; none where they come to more.
pub fn slack(lower: &[u64]) -> u64
    ensures { result ≡ slack_of lower.now }
{
    let mut left = setchain::ONE;
    for entry in lower {
        left = left.saturating_sub(*entry);
    }
    left
}

// Copies a row into a slice of its length, and leaves one of another length as it was: the library's copy asks for equal lengths.
pub fn copy_row(row: &[u64], out: &mut [u64])
    ensures { out.new ≡ copied_into row.now out.old }
{
    if out.len() == row.len() {
        out.copy_from_slice(row);
    }
}
