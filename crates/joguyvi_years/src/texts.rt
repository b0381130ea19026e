// The sheet's text put into a lent buffer.
ghost use Rattle.scheme.specs.Number.{number_in};
ghost use Rattle.joguyvi_spec.specs.Texts.{SheetCall};

use scheme::Cause;

// The sheet's text of any bytes, REFUSED line and all, and its length into a buffer of 1 number.
pub fn sheet(bytes: &[u8], out: &mut [u8], length: &mut [u64]) -> Result<(), Cause>
    ensures { SheetCall bytes.now out.old length.old (number_in result) out.new length.new }
{
    scheme::check_slice(1, length.len())?;
    // `as`: `u64` has no `From<usize>`.
    length[0] = sheet_text::sheet(bytes, out)? as u64;
    Ok(())
}
