// One year: the figures of all classes from those of the year before (document 01, "Years").
// `as` stands between `usize` and another width, for which there is no `From`, and where a number is proved to fit a narrower one: what `TryFrom`
// answers could only be unwrapped.
ghost use Rattle.std.specs.Prelude.{◌≡◌, length};
ghost use Rattle.order.specs.Order.{Permutation, along};
ghost use Rattle.bounds.specs.Joined.{joined};
ghost use Rattle.bounds.specs.Entries.{chain_listed};
ghost use Rattle.bounds.specs.Fill.{FillStatePre, FillStatePost, RoundSumsPre, RoundSumsPost, FillStatesPre, FillStatesPost};
ghost use Rattle.bounds.specs.Years.{YearPost, YearPre};

use crate::entries::Entries;
use order::{class_at, rank_again, state};

// Fills one state by the entries that lead to it, listed from place `first` to `end`: each row gives its lower parts and, as far as it has slack left, parts of it.
// The tables come apart for speed: see `years`.
fn fill_state(
    entries: &Entries,
    first: usize,
    end: usize,
    payoff: u64,
    left: &mut [u32],
    sums: &mut [u64],
)
    requires { FillStatePre (joined entries.now) first end payoff left.old sums.old }
    ensures { FillStatePost (joined entries.now) first end payoff left.old sums.old left.new sums.new }
{
    for e in first..end {
        let i = entries.states[e] as usize;
        let had = left[i];
        let given = entries.capacities[e].min(had);
        left[i] = had - given;
        sums[i] += u64::from(entries.lower_ends[e] + given) * payoff;
    }
}

// Fills all states along the order, for high figures from its other end, and leaves in `sums` for each row the sum of part times payoff.
// The tables come apart for speed: see `years`.
fn fill_states(
    entries: &Entries,
    payoff: &[u64],
    order: &[u8],
    high: bool,
    left: &mut [u32],
    sums: &mut [u64],
)
    requires { FillStatesPre (joined entries.now) payoff.now (along high order.now) left.old sums.old }
    ensures { FillStatesPost (joined entries.now) payoff.now (along high order.now) left.old sums.new }
{
    for k in 0..order.len() {
        let j = state(class_at(order, k, high));
        let first = j * 32;
        fill_state(
            entries,
            first,
            first + entries.counts[j] as usize,
            payoff[j],
            left,
            sums,
        );
    }
}

// Makes each sum of part times payoff a figure: rounded, and with the row's gain.
// Place by place, `gain[i]`, not by a zip: after a zip of `iter_mut` nothing is known of the slice's elements.
fn round_sums(gain: &[u64], high: bool, sums: &mut [u64])
    requires { RoundSumsPre gain.now sums.old }
    ensures { RoundSumsPost gain.now high sums.old sums.new }
{
    for (i, sum) in sums.iter_mut().enumerate() {
        *sum = gain[i] + rounding::round(*sum, setchain::ONE, high);
    }
}

// The figures of a year: those of the year before are kept whole while they are formed.
// The tables come apart for speed: see `years`.
// The order stays from year to year, since payoffs that were in order mostly are so again.
pub fn year(
    entries: &Entries,
    slack: &[u32; 32],
    gain: &[u64],
    high: bool,
    order: &mut [u8],
    before: [u64; 32],
) -> [u64; 32]
    requires { YearPre (joined entries.now) slack.now gain.now order.old before }
    ensures figures { YearPost (chain_listed (length gain.now) (joined entries.now)) gain.now before high result }
    ensures order { Permutation (length gain.now) order.new }
{
    let n = gain.len();
    rank_again(&before[..n], order);
    let mut left = *slack;
    let mut sums = [0u64; 32];
    fill_states(
        entries,
        &before[..n],
        order,
        high,
        &mut left[..n],
        &mut sums[..n],
    );
    round_sums(gain, high, &mut sums[..n]);
    sums
}
