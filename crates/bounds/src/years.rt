// The figures of t years, and of every year before, by recursion on the year count (document 01, "Years").
ghost use Rattle.std.specs.Prelude.{◌≡◌, ◌+◌, length, set};
ghost use Rattle.order.specs.Order.{Permutation};
ghost use Rattle.bounds.specs.Joined.{joined};
ghost use Rattle.bounds.specs.Entries.{chain_listed};
ghost use Rattle.bounds.specs.Years.{YearPost, YearsPost, YearsPre, YearPre};

use crate::entries::Entries;
use crate::year::year;

// One year more, in place.
// The tables come apart for speed: see `years`.
fn advance(
    entries: &Entries,
    slack: &[u32; 32],
    gain: &[u64],
    high: bool,
    order: &mut [u8],
    figures: &mut [u64; 32],
)
    requires { YearPre (joined entries.now) slack.now gain.now order.old figures.old }
    ensures figures { YearPost (chain_listed (length gain.now) (joined entries.now)) gain.now figures.old high figures.new }
    ensures order { Permutation (length gain.now) order.new }
{
    let before = *figures;
    *figures = year(entries, slack, gain, high, order, before);
}

// Writes a figure at a place of the slice, where the slice has it.
// By place, not by `get_mut`: tried, and once that borrow is over a proof knows the length of the slice and not its elements.
fn store_figure(figure: u64, place: usize, out: &mut [u64])
    ensures { out.new ≡ set out.old place figure }
{
    if place < out.len() {
        out[place] = figure;
    }
}

// The figures of t years, in place of the payoff: those of t - 1 first, then one year more.
// Of each year u the state's figure is written at place u × stride, where the slice has it.
// The tables come apart, and not as `Listed`: read through it, 100 years took some 5 hundredths longer.
pub fn years(
    entries: &Entries,
    slack: &[u32; 32],
    gain: &[u64],
    high: bool,
    order: &mut [u8],
    figures: &mut [u64; 32],
    t: usize,
    state: usize,
    stride: usize,
    out: &mut [u64],
)
    requires { YearsPre (joined entries.now) slack.now gain.now order.old figures.old t state stride }
    ensures { YearsPost (joined entries.now) gain.now figures.old high t state stride (t + 1)
        order.new figures.new out.old out.new }
{
    if t != 0 {
        years(
            entries,
            slack,
            gain,
            high,
            order,
            figures,
            t - 1,
            state,
            stride,
            out,
        );
        // Low figures feed the low step, high figures the high step. Two calls: with one alone the compiler lays a whole year into every frame.
        if high {
            advance(entries, slack, gain, true, order, figures);
        } else {
            advance(entries, slack, gain, false, order, figures);
        }
    }
    store_figure(figures[state], t * stride, out);
}
