// The low and the high figure of a record put into a lent buffer, and those of all classes into two.
ghost use Rattle.scheme.specs.Number.{number_in};
ghost use Rattle.bounds_spec.specs.Answers.{bounds_answer_of};
ghost use Rattle.joguyvi_spec.specs.Figures.{BoundsPost, MeanCall, ReachedCall, ShareCall, TotalCall};
ghost use Rattle.joguyvi_spec.specs.Shares.{ShareSheetCall};

use bounds::Bounds;
use scheme::Cause;

// The share of a class after a number of years, in parts, into a buffer of 2 numbers.
pub fn share(bytes: &[u8], class: u64, year: u64, out: &mut [u64]) -> Result<(), Cause>
    ensures { ShareCall bytes.now class year out.old (number_in result) out.new }
{
    put_bounds(bounds::share(record::read(bytes)?, class, year), out)
}

// The chance of having reached a class by a year, in parts, into a buffer of 2 numbers.
pub fn reached(bytes: &[u8], class: u64, year: u64, out: &mut [u64]) -> Result<(), Cause>
    ensures { ReachedCall bytes.now class year out.old (number_in result) out.new }
{
    put_bounds(reached::reached(record::read(bytes)?, class, year), out)
}

// The mean premium of a year, in cents, into a buffer of 2 numbers.
pub fn mean(bytes: &[u8], year: u64, out: &mut [u64]) -> Result<(), Cause>
    ensures { MeanCall bytes.now year out.old (number_in result) out.new }
{
    put_bounds(bounds::mean(record::read(bytes)?, year), out)
}

// The total of as many premiums as there are years, in cents, into a buffer of 2 numbers.
pub fn total(bytes: &[u8], year: u64, out: &mut [u64]) -> Result<(), Cause>
    ensures { TotalCall bytes.now year out.old (number_in result) out.new }
{
    put_bounds(bounds::total(record::read(bytes)?, year), out)
}

// Puts low and high into a buffer of 2 numbers.
pub fn put_bounds(answer: Result<Bounds, Cause>, out: &mut [u64]) -> Result<(), Cause>
    ensures { BoundsPost (bounds_answer_of answer) out.old (number_in result) out.new }
{
    let bounds = answer?;
    scheme::check_slice(2, out.len())?;
    out[0] = bounds.low;
    out[1] = bounds.high;
    Ok(())
}

// The shares of all classes after a number of years, in parts, into two buffers of as many numbers as there are classes.
pub fn share_sheet(bytes: &[u8], year: u64, low: &mut [u64], high: &mut [u64]) -> Result<(), Cause>
    ensures { ShareSheetCall bytes.now year low.old high.old (number_in result) low.new high.new }
{
    bounds::share_sheet(record::read(bytes)?, year, low, high)
}
