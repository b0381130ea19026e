// The one-year step of a class (document 01, "One year").
#![tactic(auto)]

ghost use Rattle.std.specs.Prelude.{true, false};
ghost use Rattle.step_spec.specs.StepAnswer.{StepAnswered, step_answer_of};

use scheme::{Cause, Scheme};
pub use step_spec::{MOST_PAYOFF, Step};

mod answer;
mod figure;
mod fill;
mod step;

// The low step: the least figure of a class one year on, rounded down, and a row that reaches it unrounded.
pub fn low_step(scheme: Scheme, payoff: [u64; 32], class: u64) -> Result<Step, Cause>
    ensures { StepAnswered false scheme payoff class (step_answer_of result) }
{
    answer::answer(scheme, &payoff, class, false)
}

// The high step: the greatest figure of a class one year on, rounded up, and a row that reaches it unrounded.
pub fn high_step(scheme: Scheme, payoff: [u64; 32], class: u64) -> Result<Step, Cause>
    ensures { StepAnswered true scheme payoff class (step_answer_of result) }
{
    answer::answer(scheme, &payoff, class, true)
}
