// Records checked, written again and made ready, for C: each function answers 0 or the cause's number, and fills the lent buffers only where it answers 0.
#![tactic(auto)]

ghost use Rattle.joguyvi_spec.specs.Records.{CheckCall, ReadyCall, RewriteCall};

use scheme::number_in;

mod records;

// The cause for which a record is not read, or 0.
#[unsafe(no_mangle)]
pub extern "C" fn joguyvi_check(bytes: &[u8]) -> u8
    ensures { CheckCall bytes.now result }
{
    number_in(record::check(bytes))
}

// A record read and written again, in a version, and its length into a buffer of 1 number.
#[unsafe(no_mangle)]
pub extern "C" fn joguyvi_rewrite(
    bytes: &[u8],
    version: u64,
    out: &mut [u8],
    length: &mut [u64],
) -> u8
    ensures { RewriteCall bytes.now version out.old length.old result out.new length.new }
{
    number_in(records::rewrite(bytes, version, out, length))
}

// A ready scheme as a record, in a version, and its length into a buffer of 1 number.
#[unsafe(no_mangle)]
pub extern "C" fn joguyvi_ready(
    number: u64,
    base: u64,
    version: u64,
    out: &mut [u8],
    length: &mut [u64],
) -> u8
    ensures { ReadyCall number base version out.old length.old result out.new length.new }
{
    number_in(records::ready(number, base, version, out, length))
}
