// The one-year step of a record over a lent payoff, and its answer put into lent buffers.
ghost use Rattle.std.specs.Prelude.{◌≡◌};
ghost use Rattle.scheme.specs.FirstCause.{or_else};
ghost use Rattle.scheme.specs.Cause.{slice_cause};
ghost use Rattle.scheme.specs.Number.{number_in};
ghost use Rattle.step_spec.specs.StepAnswer.{step_answer_of, StepAnswered};
ghost use Rattle.joguyvi_spec.specs.Buffers.{buffer_cause};
ghost use Rattle.joguyvi_spec.specs.Steps.{StepCall, StepBuffersPost};

use joguyvi_buffers::padded_32;
use scheme::{Cause, Scheme, check_slice};
use step::Step;

// Cause 13 of the step's buffers.
fn check_buffers(payoff: &[u64], figure: usize, row: usize) -> Result<(), Cause>
    ensures { number_in result ≡ or_else (buffer_cause 32 payoff.now) (or_else (slice_cause 1 figure) (slice_cause 32 row)) }
{
    check_slice(32, payoff.len())?;
    check_slice(1, figure)?;
    check_slice(32, row)
}

// Puts a step's figure into a buffer of 1 number and its row into one of 32; the payoff was lent as `payoff`.
fn put_step(
    answer: Result<Step, Cause>,
    payoff: &[u64],
    figure: &mut [u64],
    row: &mut [u64],
) -> Result<(), Cause>
    ensures { StepBuffersPost (step_answer_of answer) payoff.now figure.old row.old (number_in result) figure.new row.new }
{
    let step = answer?;
    check_buffers(payoff, figure.len(), row.len())?;
    figure[0] = step.figure;
    row.copy_from_slice(&step.row);
    Ok(())
}

// The low step's answer, or the high step's where `high` is true: a flag, and no function lent, since `StepCall` tells the side by it.
fn answer_of(scheme: Scheme, payoff: [u64; 32], class: u64, high: bool) -> Result<Step, Cause>
    ensures { StepAnswered high scheme payoff class (step_answer_of result) }
{
    if high {
        step::high_step(scheme, payoff, class)
    } else {
        step::low_step(scheme, payoff, class)
    }
}

// The low step of a record, or the high step where `high` is true: its figure and its row into their buffers. Of the payoff what is missing
// counts as 0, and what lies beyond 32 is ignored. Its parameters are those that C lends.
pub fn step(
    bytes: &[u8],
    payoff: &[u64],
    class: u64,
    high: bool,
    figure: &mut [u64],
    row: &mut [u64],
) -> Result<(), Cause>
    ensures { StepCall high bytes.now payoff.now class figure.old row.old (number_in result) figure.new row.new }
{
    let scheme = record::read(bytes)?;
    let step = answer_of(scheme, padded_32(payoff, 0), class, high);
    put_step(step, payoff, figure, row)
}
