// The figure of a row: the sum of part times payoff over ONE, rounded.
ghost use Rattle.std.specs.Prelude.{◌≡◌, length};
ghost use Rattle.setchain.specs.Rounding.{rounded};
ghost use Rattle.setchain.specs.Rows.{ONE};
ghost use Rattle.setchain.specs.Sums.{at, dot};
ghost use Rattle.step.specs.Figure.{WeighPre};

// The sum of part times payoff.
fn weigh(row: &[u64], payoff: &[u64]) -> u64
    requires { WeighPre row.now payoff.now }
    ensures { result ≡ dot (length row.now) (at row.now) (at payoff.now) }
{
    let mut sum: u64 = 0;
    for (part, pays) in row.iter().zip(payoff) {
        sum += *part * *pays;
    }
    sum
}

// The row's figure: rounded down for a low figure, up for a high one.
pub fn figure(row: &[u64], payoff: &[u64], high: bool) -> u64
    requires { WeighPre row.now payoff.now }
    ensures { result ≡ rounded high ONE (dot (length row.now) (at row.now) (at payoff.now)) }
{
    rounding::round(weigh(row, payoff), setchain::ONE, high)
}
