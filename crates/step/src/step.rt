// The one-year step of one state over slices (document 01, "One year").
ghost use Rattle.step.specs.Step.{StepPre, StepPost};

use crate::figure::figure;
use crate::fill::fill;

// The low figure, or, where `high` is set, the high one, and in `row` a row inside the interval that reaches it.
// A struct of the slices would be made for this one call.
pub fn step(
    lower: &[u64],
    upper: &[u64],
    payoff: &[u64],
    order: &[u8],
    high: bool,
    row: &mut [u64],
) -> u64
    requires { StepPre lower.now upper.now payoff.now order.now high row.old }
    ensures { StepPost lower.now upper.now payoff.now high row.new result }
{
    fill(lower, upper, order, high, row);
    figure(row, payoff, high)
}
