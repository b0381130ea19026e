// All figures of a sheet in one table, each column's figures carried from year to year (document 01, "Sheet program and examples").
// `as` stands between `usize` and another width, for which there is no `From`, and where a number is proved to fit a narrower one: what `TryFrom`
// answers could only be unwrapped.
ghost use Rattle.std.specs.Prelude.{◌≡◌};
ghost use Rattle.bounds_spec.specs.Table.{figure_table};
ghost use Rattle.bounds.specs.Sheets.{MeanColumnPost, MeanColumnPre, ShareColumnsPost, WritePre};
ghost use Rattle.bounds_spec.specs.Causes.{table_size};

use crate::entries::{Entries, Listed};
use crate::money::{in_tenths, round_means};
use crate::payoffs::share_payoff;
use crate::series::Rewards;
use scheme::Scheme;

impl Listed<'_> {
    // Writes the shares of all classes, a column for each.
    fn share_columns(&self, high: bool, out: &mut [u64])
        requires { WritePre self.now.scheme (table_size self.now.scheme) out.old }
        ensures { ShareColumnsPost high self.now.scheme out.new self.now.scheme.classes }
    {
        let classes = usize::from(self.scheme.classes);
        let years = u64::from(self.scheme.horizon);
        for j in 0..classes {
            let rewards = Rewards {
                gain: [0; 32],
                payoff: share_payoff((j + 1) as u64),
            };
            self.series(&rewards, high, years, classes + 1, &mut out[j..]);
        }
    }

    // Writes the column of the means, from the premiums in tenths, to the part of the table that begins at the mean of year 0.
    fn mean_column(&self, premiums: [u64; 32], high: bool, out: &mut [u64])
        requires { MeanColumnPre self.now.scheme premiums }
        ensures { MeanColumnPost high self.now.scheme out.old out.new }
    {
        let rewards = Rewards {
            gain: [0; 32],
            payoff: premiums,
        };
        let stride = usize::from(self.scheme.classes) + 1;
        let years = u64::from(self.scheme.horizon);
        self.series(&rewards, high, years, stride, out);
        round_means(high, stride, out);
    }
}

// Writes the table of the low figures, or, where `high` is set, of the high ones: shares, means and the total.
pub fn write_table(scheme: Scheme, high: bool, out: &mut [u64])
    requires { WritePre scheme (table_size scheme) out.old }
    ensures { out.new ≡ figure_table high scheme }
{
    let mut entries = Entries::EMPTY;
    let mut slack = [0; 32];
    let listed = Listed::of(scheme, &mut entries, &mut slack);
    listed.share_columns(high, out);
    let premiums = in_tenths(scheme.premiums);
    let mean = usize::from(scheme.classes);
    listed.mean_column(premiums, high, &mut out[mean..]);
    let rewards = Rewards {
        gain: premiums,
        payoff: [0; 32],
    };
    let years = u64::from(scheme.horizon);
    let mut nowhere: [u64; 0] = [];
    let total = listed.series(&rewards, high, years, 1, &mut nowhere);
    let last = out.len() - 1;
    out[last] = rounding::round(total, setchain::CENT, high);
}
