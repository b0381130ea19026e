// Tight rows, rule rows and bands of a record, and its mixing check, for C: each function answers 0 or the cause's number, and fills the lent buffers only where it answers 0.
#![tactic(auto)]

ghost use Rattle.joguyvi_spec.specs.Rows.{BandsCall, RowCall, RuleRowCall};
ghost use Rattle.joguyvi_spec.specs.Mixing.{MixingCall};

use scheme::number_in;

mod row_buffers;

// The tight row of a class, in parts, into two buffers of 32 numbers, with 0 beyond the classes.
#[unsafe(no_mangle)]
pub extern "C" fn joguyvi_row(bytes: &[u8], class: u64, lower: &mut [u64], upper: &mut [u64]) -> u8
    ensures { RowCall bytes.now class lower.old upper.old result lower.new upper.new }
{
    number_in(row_buffers::row(bytes, class, lower, upper))
}

// The rule row of a class, as the record shows it, into a buffer of as many bytes as there are columns.
#[unsafe(no_mangle)]
pub extern "C" fn joguyvi_rule_row(bytes: &[u8], class: u64, out: &mut [u8]) -> u8
    ensures { RuleRowCall bytes.now class out.old result out.new }
{
    number_in(row_buffers::rule_row(bytes, class, out))
}

// The bands of all columns, in parts, into two buffers of as many numbers as there are columns.
#[unsafe(no_mangle)]
pub extern "C" fn joguyvi_bands(bytes: &[u8], lower: &mut [u32], upper: &mut [u32]) -> u8
    ensures { BandsCall bytes.now lower.old upper.old result lower.new upper.new }
{
    number_in(row_buffers::bands(bytes, lower, upper))
}

// The first count of years, 1 to 1,024, in which every class can go to every class, into a buffer of 1 number.
#[unsafe(no_mangle)]
pub extern "C" fn joguyvi_mixing(bytes: &[u8], count: &mut [u64]) -> u8
    ensures { MixingCall bytes.now count.old result count.new }
{
    number_in(row_buffers::mixing(bytes, count))
}
