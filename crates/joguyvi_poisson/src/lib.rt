// The bands of two claim frequencies, for C: 0 or the cause's number, and the lent buffers filled only where it is 0.
#![tactic(auto)]

ghost use Rattle.scheme.specs.Number.{number_in};
ghost use Rattle.poisson_spec.specs.Answer.{bands_answer_of};
ghost use Rattle.joguyvi_spec.specs.Poisson.{PoissonCall, PutBandsPost};

use poisson::Bands;
use scheme::{Cause, number_in};

// The bands of two frequencies in thousandths, 0 to 1,000, the smaller first, for 2 to 8 columns, in parts, into two buffers of 8 numbers, with 0 beyond the columns.
#[unsafe(no_mangle)]
pub extern "C" fn joguyvi_poisson(
    first: u64,
    second: u64,
    columns: u64,
    lower: &mut [u32],
    upper: &mut [u32],
) -> u8
    ensures { PoissonCall first second columns lower.old upper.old result lower.new upper.new }
{
    number_in(put_bands(poisson::bands(first, second, columns), lower, upper))
}

// Puts bands into two buffers of 8 numbers.
fn put_bands(
    answer: Result<Bands, Cause>,
    lower: &mut [u32],
    upper: &mut [u32],
) -> Result<(), Cause>
    ensures { PutBandsPost (bands_answer_of answer) lower.old upper.old (number_in result) lower.new upper.new }
{
    let bands = answer?;
    scheme::check_slices(8, lower.len(), upper.len())?;
    joguyvi_buffers::copy_front(&bands.lower, lower);
    joguyvi_buffers::copy_front(&bands.upper, upper);
    Ok(())
}
