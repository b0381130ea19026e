// Money is carried in tenths of a cent and answered in cents (document 02, item 6).
ghost use Rattle.std.specs.Prelude.{◌≡◌, false, true};
ghost use Rattle.setchain.specs.Rounding.{rounded};
ghost use Rattle.setchain.specs.Years.{CENT};
ghost use Rattle.bounds.specs.Money.{RoundMeansPost, RoundMeansPre, TenthsPost};

use crate::Bounds;

// The premiums in tenths of a cent, as a figure vector.
pub fn in_tenths(premiums: [u32; 32]) -> [u64; 32]
    ensures { TenthsPost premiums result }
{
    premiums.map(|premium| u64::from(premium) * setchain::CENT)
}

// Low and high in tenths as low and high in cents, rounded outward.
pub fn in_cents(tenths: Bounds) -> Bounds
    ensures low { result.low ≡ rounded false CENT tenths.low }
    ensures high { result.high ≡ rounded true CENT tenths.high }
{
    Bounds {
        low: rounding::round(tenths.low, setchain::CENT, false),
        high: rounding::round(tenths.high, setchain::CENT, true),
    }
}

// Rounds to cents the means in tenths that stand at each place u × stride of a slice: low ones down, high ones up.
pub fn round_means(high: bool, stride: usize, means: &mut [u64])
    requires { RoundMeansPre stride }
    ensures { RoundMeansPost high stride means.old means.new }
{
    for place in (0..means.len()).step_by(stride) {
        means[place] = rounding::round(means[place], setchain::CENT, high);
    }
}
