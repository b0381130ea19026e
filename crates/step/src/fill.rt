// The fill: a row that starts from the lowers and gives the slack along an order of the classes, for a high figure from its other end.
ghost use Rattle.order.specs.Order.{along};
ghost use Rattle.step.specs.Fill.{FillPre, FillPost, FillSlackPre};

use order::{class_at, state};
use rows::{copy_row, slack};

// Gives the slack to a row that holds the lowers, to each class along the order as far as its capacity goes.
// Returns the place of the class that took the last of them.
fn fill_slack(upper: &[u64], order: &[u8], high: bool, row: &mut [u64], parts: u64) -> usize
    requires { FillSlackPre row.old upper.now (along high order.now) parts }
    ensures { FillPost row.old upper.now (along high order.now) row.new result }
{
    let mut slack = parts;
    let mut k = 0;
    // A loop and no `for`: `FillPost` promises the place where the slack ran out, and past the last place there is none to return.
    loop {
        let j = state(class_at(order, k, high));
        let capacity = upper[j] - row[j];
        if slack <= capacity {
            row[j] += slack;
            return k;
        }
        row[j] += capacity;
        slack -= capacity;
        k += 1;
    }
}

// Writes to `row` the lowers with the slack, given along the order, and returns the place where it ran out.
pub fn fill(lower: &[u64], upper: &[u64], order: &[u8], high: bool, row: &mut [u64]) -> usize
    requires { FillPre lower.now upper.now (along high order.now) row.old }
    ensures { FillPost lower.now upper.now (along high order.now) row.new result }
{
    copy_row(lower, row);
    fill_slack(upper, order, high, row, slack(lower))
}
