// Rows, bands and counts of a record put into lent buffers.
ghost use Rattle.std.specs.Prelude.{◌≡◌, ◌≤◌, length};
ghost use Rattle.scheme.specs.Number.{number_in};
ghost use Rattle.scheme.specs.RowAnswer.{row_answer_of};
ghost use Rattle.mixing_spec.specs.MixingAnswer.{mixing_answer_of};
ghost use Rattle.joguyvi_spec.specs.Rows.{BandsCall, BandsPost, PartPost, RowCall, RowPost, RuleRowCall};
ghost use Rattle.joguyvi_spec.specs.Mixing.{MixingCall, PutCountPost};

use scheme::{Cause, Row, Scheme};

// Puts all of a list into a buffer of its length. By place: the library's copy comes to a call of `memmove` where this one stands, and the
// archives need `memcpy` and `memset` alone.
fn put_all<T: Copy>(list: &[T], out: &mut [T])
    requires { length out.old ≡ length list.now }
    ensures { out.new ≡ list.now }
{
    for (k, place) in out.iter_mut().enumerate() {
        *place = list[k];
    }
}

// The tight row of a class of a record, in parts, into two buffers of 32 numbers.
pub fn row(bytes: &[u8], class: u64, lower: &mut [u64], upper: &mut [u64]) -> Result<(), Cause>
    ensures { RowCall bytes.now class lower.old upper.old (number_in result) lower.new upper.new }
{
    put_row(rows::row(record::read(bytes)?, class), lower, upper)
}

// Puts a row into two buffers of 32 numbers.
fn put_row(answer: Result<Row, Cause>, lower: &mut [u64], upper: &mut [u64]) -> Result<(), Cause>
    ensures { RowPost (row_answer_of answer) lower.old upper.old (number_in result) lower.new upper.new }
{
    let row = answer?;
    scheme::check_slices(32, lower.len(), upper.len())?;
    put_all(&row.lower, lower);
    put_all(&row.upper, upper);
    Ok(())
}

// The rule row of a class of a record into a buffer of as many bytes as there are columns.
pub fn rule_row(bytes: &[u8], class: u64, out: &mut [u8]) -> Result<(), Cause>
    ensures { RuleRowCall bytes.now class out.old (number_in result) out.new }
{
    record::check(bytes)?;
    put_part(record_parts::rule_row(bytes, class), out)
}

// Puts a part of a record that is shown into a buffer of as many bytes; an empty part is cause 11.
fn put_part(part: &[u8], out: &mut [u8]) -> Result<(), Cause>
    ensures { PartPost part.now out.old (number_in result) out.new }
{
    if part.is_empty() {
        return Err(Cause::Class);
    }
    scheme::check_slice(part.len(), out.len())?;
    put_all(part, out);
    Ok(())
}

// The bands of all columns of a record into two buffers of as many numbers as there are columns.
pub fn bands(bytes: &[u8], lower: &mut [u32], upper: &mut [u32]) -> Result<(), Cause>
    ensures { BandsCall bytes.now lower.old upper.old (number_in result) lower.new upper.new }
{
    put_bands(record::read(bytes)?, lower, upper)
}

// Puts the bands of all columns into two buffers.
fn put_bands(scheme: Scheme, lower: &mut [u32], upper: &mut [u32]) -> Result<(), Cause>
    requires { scheme.columns ≤ 8 }
    ensures { BandsPost scheme lower.old upper.old (number_in result) lower.new upper.new }
{
    let columns = usize::from(scheme.columns);
    scheme::check_slices(columns, lower.len(), upper.len())?;
    lower.copy_from_slice(&scheme.lowers[..columns]);
    upper.copy_from_slice(&scheme.uppers[..columns]);
    Ok(())
}

// The first count of years that mixes a record's scheme into a buffer of 1 number.
pub fn mixing(bytes: &[u8], count: &mut [u64]) -> Result<(), Cause>
    ensures { MixingCall bytes.now count.old (number_in result) count.new }
{
    put_count(mixing::mixing(record::read(bytes)?), count)
}

// Puts a count of years into a buffer of 1 number.
fn put_count(answer: Result<u64, Cause>, out: &mut [u64]) -> Result<(), Cause>
    ensures { PutCountPost (mixing_answer_of answer) out.old (number_in result) out.new }
{
    let count = answer?;
    scheme::check_slice(1, out.len())?;
    out[0] = count;
    Ok(())
}
