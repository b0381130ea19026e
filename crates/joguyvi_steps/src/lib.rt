// The one-year step of a class of a record, for C: each function answers 0 or the cause's number, and fills the lent buffers only where it answers 0.
#![tactic(auto)]

ghost use Rattle.std.specs.Prelude.{false, true};
ghost use Rattle.joguyvi_spec.specs.Steps.{StepCall};

use scheme::number_in;

mod steps;

// The low step of a class: its figure into a buffer of 1 number, and a row that reaches it into one of 32; the payoff is of 32 numbers.
#[unsafe(no_mangle)]
pub extern "C" fn joguyvi_low_step(
    bytes: &[u8],
    payoff: &[u64],
    class: u64,
    figure: &mut [u64],
    row: &mut [u64],
) -> u8
    ensures { StepCall false bytes.now payoff.now class figure.old row.old result figure.new row.new }
{
    number_in(steps::step(bytes, payoff, class, false, figure, row))
}

// The high step of a class: its figure into a buffer of 1 number, and a row that reaches it into one of 32; the payoff is of 32 numbers.
#[unsafe(no_mangle)]
pub extern "C" fn joguyvi_high_step(
    bytes: &[u8],
    payoff: &[u64],
    class: u64,
    figure: &mut [u64],
    row: &mut [u64],
) -> u8
    ensures { StepCall true bytes.now payoff.now class figure.old row.old result figure.new row.new }
{
    number_in(steps::step(bytes, payoff, class, true, figure, row))
}
