// The public one-year step's parts (document 01, "One year" and "When a call is declined").
ghost use Rattle.std.specs.Prelude.{◌≡◌, ◌≤◌, length};
ghost use Rattle.scheme.specs.Number.{number_in};
ghost use Rattle.scheme.specs.Stages.{limit_cause};
ghost use Rattle.step_spec.specs.StepAnswer.{MOST_PAYOFF, StepAnswered, step_answer_of};

use crate::Step;
use crate::step::step;
use order::rank;
use scheme::{Cause, Scheme};

// Cause 10: some class's payoff is above its limit. Not one function with the test of premiums, which have another width: each is one `any`.
fn check_payoff(payoff: &[u64], classes: u8) -> Result<(), Cause>
    requires { classes ≤ length payoff.now }
    ensures { number_in result ≡ limit_cause MOST_PAYOFF payoff.now classes }
{
    let n = usize::from(classes);
    if payoff[..n].iter().any(|pays| crate::MOST_PAYOFF < *pays) {
        return Err(Cause::Money);
    }
    Ok(())
}

// The low step's answer, or, where `high` is set, the high step's; the payoff's cause comes after the scheme's own and before the class's.
pub fn answer(scheme: Scheme, payoff: &[u64], class: u64, high: bool) -> Result<Step, Cause>
    requires { length payoff.now ≡ 32 }
    ensures { StepAnswered high scheme payoff.now class (step_answer_of result) }
{
    let interval = rows::interval_row(scheme, class);
    if let Err(cause) = interval
        && cause != Cause::Class
    {
        return Err(cause);
    }
    check_payoff(payoff, scheme.classes)?;
    let interval = interval?;
    let n = usize::from(scheme.classes);
    let payoffs = &payoff[..n];
    let mut order = [0u8; 32];
    rank(payoffs, &mut order[..n]);
    let mut row = [0u64; 32];
    let figure = step(
        &interval.lower[..n],
        &interval.upper[..n],
        payoffs,
        &order[..n],
        high,
        &mut row[..n],
    );
    Ok(Step { figure, row })
}
