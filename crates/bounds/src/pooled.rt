// Opening books pooled: the mean of the figures of all classes, weighed by how many chambers begin in each (document 02, item 7).
// `as` stands between `usize` and another width, for which there is no `From`, and where a number is proved to fit a narrower one: what `TryFrom`
// answers could only be unwrapped.
ghost use Rattle.std.specs.Prelude.{◌≡◌, false, true};
ghost use Rattle.setchain.specs.Sums.{at};
ghost use Rattle.setchain.specs.Pooled.{pooled_figure};
ghost use Rattle.bounds_spec.specs.Pooled.{pooled_shares};
ghost use Rattle.bounds.specs.Pooled.{PoolPre, PooledPre, WritePooledPre, pooled_years};

use crate::Bounds;
use crate::entries::{Entries, Listed};
use crate::payoffs::share_payoff;
use crate::series::Rewards;
use scheme::Scheme;

// The sum of count times figure over the sum of the counts, where so many units of a figure make one of the answer, rounded outward once.
fn pool(book: [u32; 32], figures: [u64; 32], classes: u8, units: u64, high: bool) -> u64
    requires { PoolPre classes units book figures }
    ensures { result ≡ pooled_figure high units classes (at book) (at figures) }
{
    let mut sum: u64 = 0;
    let mut chambers: u64 = 0;
    for (count, figure) in book.iter().zip(&figures).take(usize::from(classes)) {
        let count = u64::from(*count);
        sum += count * *figure;
        chambers += count;
    }
    rounding::round(sum, units * chambers, high)
}

impl Listed<'_> {
    // The pooled figure of a book after t years: the low one, or, where `high` is set, the high one. One run of the years gives the figures of all classes.
    // What is passed beside `self` differs from call to call.
    fn pooled_figure(
        &self,
        book: [u32; 32],
        units: u64,
        rewards: &Rewards,
        high: bool,
        t: u64,
    ) -> u64
        requires { PooledPre self.now.scheme book units rewards.now.gain rewards.now.payoff t }
        ensures { result ≡ pooled_years high self.now.scheme book units rewards.now.gain rewards.now.payoff t }
    {
        let mut none: [u64; 0] = [];
        let figures = self.class_figures(rewards, high, t, 1, &mut none);
        pool(book, figures, self.scheme.classes, units, high)
    }
}

// Both pooled figures: low and high run on their own. Not one function with `start_bounds` by a closure, whose post-condition would stand in place
// of these equations; the same of `write_pooled` and `write_shares`.
pub fn pooled_bounds(
    scheme: Scheme,
    book: [u32; 32],
    units: u64,
    rewards: &Rewards,
    t: u64,
) -> Bounds
    requires { PooledPre scheme book units rewards.now.gain rewards.now.payoff t }
    ensures low { result.low ≡ pooled_years false scheme book units rewards.now.gain rewards.now.payoff t }
    ensures high { result.high ≡ pooled_years true scheme book units rewards.now.gain rewards.now.payoff t }
{
    let mut entries = Entries::EMPTY;
    let mut slack = [0; 32];
    let listed = Listed::of(scheme, &mut entries, &mut slack);
    let low = listed.pooled_figure(book, units, rewards, false, t);
    let high = listed.pooled_figure(book, units, rewards, true, t);
    Bounds { low, high }
}

// Writes the pooled low share of each class, or, where `high` is set, the high one.
pub fn write_pooled(scheme: Scheme, book: [u32; 32], year: u64, high: bool, out: &mut [u64])
    requires { WritePooledPre scheme book out.old }
    ensures { out.new ≡ pooled_shares high scheme book year }
{
    let mut entries = Entries::EMPTY;
    let mut slack = [0; 32];
    let listed = Listed::of(scheme, &mut entries, &mut slack);
    for (j, share) in out.iter_mut().enumerate() {
        let rewards = Rewards {
            gain: [0; 32],
            payoff: share_payoff((j + 1) as u64),
        };
        *share = listed.pooled_figure(book, 1, &rewards, high, year);
    }
}
