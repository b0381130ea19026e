// A scheme put into a lent buffer as a record: one that is read, and one that is ready.
ghost use Rattle.std.specs.Prelude.{◌≡◌, false};
ghost use Rattle.scheme.specs.Cause.{cause_of};
ghost use Rattle.scheme.specs.Number.{number_in};
ghost use Rattle.record_spec.specs.Layout.{other_version};
ghost use Rattle.joguyvi_spec.specs.Records.{ReadyCall, RecordPost, RewriteCall};

use scheme::{Cause, Scheme};

// A record read and written again, in a version, and its length into a buffer of 1 number.
pub fn rewrite(bytes: &[u8], version: u64, out: &mut [u8], length: &mut [u64]) -> Result<(), Cause>
    ensures { RewriteCall bytes.now version out.old length.old (number_in result) out.new length.new }
{
    if record::other_version(version) {
        return Err(Cause::Version);
    }
    put_record(record::read(bytes)?, version, out, length)
}

// A ready scheme as a record, in a version, and its length into a buffer of 1 number.
pub fn ready(
    number: u64,
    base: u64,
    version: u64,
    out: &mut [u8],
    length: &mut [u64],
) -> Result<(), Cause>
    ensures { ReadyCall number base version out.old length.old (number_in result) out.new length.new }
{
    if record::other_version(version) {
        return Err(Cause::Version);
    }
    put_record(ready::ready(number, base)?, version, out, length)
}

// Puts an accepted scheme's record in a version that there is into `out`, and its length into a buffer of 1 number.
fn put_record(scheme: Scheme, version: u64, out: &mut [u8], length: &mut [u64]) -> Result<(), Cause>
    requires { (other_version version ≡ false) × (cause_of scheme ≡ 0) }
    ensures { RecordPost scheme version out.old length.old (number_in result) out.new length.new }
{
    scheme::check_slice(1, length.len())?;
    // `as`: `u64` has no `From<usize>`.
    length[0] = record_write::write(scheme, version, out)? as u64;
    Ok(())
}
