// The numbers of a share sheet: the shares of all classes, low and high.
// `as` stands between `usize` and another width, for which there is no `From`, and where a number is proved to fit a narrower one: what `TryFrom`
// answers could only be unwrapped.
ghost use Rattle.std.specs.Prelude.{◌≡◌};
ghost use Rattle.bounds_spec.specs.Answers.{figure_shares};
ghost use Rattle.bounds.specs.Sheets.{WritePre};

use crate::entries::{Entries, Listed};
use crate::payoffs::share_payoff;
use crate::series::Rewards;
use scheme::Scheme;

// Writes the low share of each class, or, where `high` is set, the high one.
// Not one function with `write_pooled`: see `pooled_bounds`.
pub fn write_shares(scheme: Scheme, year: u64, high: bool, out: &mut [u64])
    requires { WritePre scheme scheme.classes out.old }
    ensures { out.new ≡ figure_shares high scheme year }
{
    let mut entries = Entries::EMPTY;
    let mut slack = [0; 32];
    let listed = Listed::of(scheme, &mut entries, &mut slack);
    for (j, share) in out.iter_mut().enumerate() {
        let rewards = Rewards {
            gain: [0; 32],
            payoff: share_payoff((j + 1) as u64),
        };
        let mut none: [u64; 0] = [];
        *share = listed.series(&rewards, high, year, 1, &mut none);
    }
}
