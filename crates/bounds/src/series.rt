// The start class's figures (document 01, "Years": "The answer is the start class's figure").
// `as` stands between `usize` and another width, for which there is no `From`, and where a number is proved to fit a narrower one: what `TryFrom`
// answers could only be unwrapped.
ghost use Rattle.std.specs.Prelude.{◌≡◌, false, true};
ghost use Rattle.bounds.specs.Series.{ClassFiguresPost, SeriesPost, SeriesPre, start_figure};

use crate::Bounds;
use crate::entries::{Entries, Listed};
use crate::years::years;
use order::{rank, state};
use scheme::Scheme;

// What a run of years brings each class: a gain in every year, and a payoff after the last.
#[derive(Clone, Copy)]
pub struct Rewards {
    pub gain: [u64; 32],
    pub payoff: [u64; 32],
}

impl Listed<'_> {
    // The low figures of all classes after t years, or, where `high` is set, the high ones.
    // What is passed beside `self` differs from call to call.
    // Of each year u to t the start class's figure is written at place u × stride, where the slice has it.
    pub fn class_figures(
        &self,
        rewards: &Rewards,
        high: bool,
        t: u64,
        stride: usize,
        out: &mut [u64],
    ) -> [u64; 32]
        requires { SeriesPre self.now.scheme rewards.now.gain rewards.now.payoff t stride }
        ensures { ClassFiguresPost high self.now.scheme rewards.now.gain rewards.now.payoff t stride out.old out.new result }
    {
        let n = usize::from(self.scheme.classes);
        let mut order = [0u8; 32];
        let mut figures = rewards.payoff;
        rank(&figures[..n], &mut order[..n]);
        let begins = state(self.scheme.start);
        years(
            self.entries,
            self.slack,
            &rewards.gain[..n],
            high,
            &mut order[..n],
            &mut figures,
            t as usize,
            begins,
            stride,
            out,
        );
        figures
    }

    // The low figure of the start class after t years, or, where `high` is set, the high one.
    // What is passed beside `self` differs from call to call.
    // Of each year u to t the figure is written at place u × stride, where the slice has it.
    pub fn series(
        &self,
        rewards: &Rewards,
        high: bool,
        t: u64,
        stride: usize,
        out: &mut [u64],
    ) -> u64
        requires { SeriesPre self.now.scheme rewards.now.gain rewards.now.payoff t stride }
        ensures { SeriesPost high self.now.scheme rewards.now.gain rewards.now.payoff t stride out.old out.new result }
    {
        let figures = self.class_figures(rewards, high, t, stride, out);
        figures[state(self.scheme.start)]
    }
}

// Both figures of the start class: low and high run on their own.
pub fn start_bounds(scheme: Scheme, rewards: &Rewards, t: u64) -> Bounds
    requires { SeriesPre scheme rewards.now.gain rewards.now.payoff t 1 }
    ensures low { result.low ≡ start_figure false scheme rewards.now.gain rewards.now.payoff t }
    ensures high { result.high ≡ start_figure true scheme rewards.now.gain rewards.now.payoff t }
{
    let mut entries = Entries::EMPTY;
    let mut slack = [0; 32];
    let listed = Listed::of(scheme, &mut entries, &mut slack);
    let mut none: [u64; 0] = [];
    let low = listed.series(rewards, false, t, 1, &mut none);
    let high = listed.series(rewards, true, t, 1, &mut none);
    Bounds { low, high }
}
