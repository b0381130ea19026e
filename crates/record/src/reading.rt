// A scheme read from the bytes of a record, part by part.
ghost use Rattle.std.specs.Prelude.{◌≡◌, ◌+◌, ◌*◌, ◌<◌, ◌≤◌, length, get_or};
ghost use Rattle.scheme.specs.Access.{CELL_PLACES};
ghost use Rattle.scheme.specs.Tables.{tab};
ghost use Rattle.big_endian_spec.specs.Numbers.{be_at};
ghost use Rattle.scheme.specs.Stored.{rules_up_to};
ghost use Rattle.scheme.specs.FirstCause.{◌when◌};
ghost use Rattle.scheme.specs.Number.{number_in};
ghost use Rattle.record_spec.specs.Layout.{HEADER, layout_in, header_length, columns_in, scheme_in};
ghost use Rattle.record_spec.specs.Read.{version_out, field_out, length_out, further_out, frame_cause};
ghost use Rattle.record_spec.specs.Frame.{Framed};

use super::{header_length, length_of, other_version, premium_width};
use record_spec::{BAND_WIDTH, END_WIDTH, HEADER};
use scheme::{Cause, Scheme};

// Cause 1.
fn check_version(bytes: &[u8]) -> Result<(), Cause>
    ensures { number_in result ≡ 1 when version_out bytes.now }
{
    match bytes.first() {
        Some(version) if !other_version(u64::from(*version)) => Ok(()),
        _ => Err(Cause::Version),
    }
}

// Cause 2.
fn check_length_field(bytes: &[u8]) -> Result<(), Cause>
    ensures { number_in result ≡ 2 when field_out bytes.now }
{
    if bytes.len() < HEADER {
        return Err(Cause::LengthField);
    }
    // `as`: `usize` has no `From<u32>`.
    if (big_endian::number_at(bytes, 1, 2) as usize) != bytes.len() {
        return Err(Cause::LengthField);
    }
    Ok(())
}

// Cause 4.
fn check_length(bytes: &[u8]) -> Result<(), Cause>
    requires { HEADER ≤ length bytes.now }
    ensures { number_in result ≡ 4 when length_out bytes.now }
{
    if bytes.len() != length_of(u64::from(bytes[0]), bytes[3], bytes[4]) {
        return Err(Cause::Length);
    }
    Ok(())
}

// Cause 17.
// The version is told by its number, as in `header_length`.
fn check_last_column(bytes: &[u8]) -> Result<(), Cause>
    requires { (header_length (layout_in bytes.now) ≤ length bytes.now) × (1 ≤ columns_in bytes.now) }
    ensures { number_in result ≡ 17 when further_out bytes.now }
{
    if bytes[0] != 2 {
        return Ok(());
    }
    if bytes[7] != bytes[4] - 1 {
        return Err(Cause::LastColumn);
    }
    Ok(())
}

// The first of the causes 1 to 4 and 17.
pub fn check_frame(bytes: &[u8]) -> Result<(), Cause>
    ensures { number_in result ≡ frame_cause bytes.now }
{
    check_version(bytes)?;
    check_length_field(bytes)?;
    scheme::check_sizes(bytes[3], bytes[4])?;
    check_length(bytes)?;
    check_last_column(bytes)
}

// The rules of s classes and m columns, from place `from` on.
// s and m count classes and columns: they are no length of a slice that is lent.
fn rules(bytes: &[u8], from: usize, s: usize, m: usize) -> [u8; 256]
    requires { (from + s * m ≤ length bytes.now) × (s ≤ 32) × (m ≤ 8) }
    ensures { result ≡ tab CELL_PLACES (rules_up_to s m (λ i k. get_or bytes.now (from + i * m + k) 0)) }
{
    let mut rules = [0u8; 256];
    for i in 0..s {
        big_endian::copy(bytes, from + i * m, &mut rules, i * scheme::CELL_STRIDE, m);
    }
    rules
}

// Fills a slice with numbers of `width` bytes, one every `stride` bytes from place `from` on.
fn read_numbers(bytes: &[u8], from: usize, width: usize, stride: usize, out: &mut [u32])
    requires { (from + length out.old * stride + width ≤ length bytes.now + stride) × (width ≤ 4) × (stride ≤ 8) }
    ensures { out.new ≡ tab (length out.old) (λ k. be_at width bytes.now (from + k * stride)) }
{
    for (k, number) in out.iter_mut().enumerate() {
        *number = big_endian::number_at(bytes, from + k * stride, width);
    }
}

// The scheme in bytes that none of the causes 1 to 4 and 17 declines.
pub fn parsed(bytes: &[u8]) -> Scheme
    requires { Framed bytes.now }
    ensures { result ≡ scheme_in bytes.now }
{
    let classes = bytes[3];
    let columns = bytes[4];
    let start = bytes[5];
    let horizon = bytes[6];
    let s = usize::from(classes);
    let m = usize::from(columns);
    let version = u64::from(bytes[0]);
    let header = header_length(version);
    let width = premium_width(version);
    let bands = header + s * m;
    let money = bands + m * BAND_WIDTH;
    let rules = rules(bytes, header, s, m);
    let mut lowers = [0u32; 8];
    read_numbers(bytes, bands, END_WIDTH, BAND_WIDTH, &mut lowers[..m]);
    let mut uppers = [0u32; 8];
    read_numbers(
        bytes,
        bands + END_WIDTH,
        END_WIDTH,
        BAND_WIDTH,
        &mut uppers[..m],
    );
    let mut premiums = [0u32; 32];
    read_numbers(bytes, money, width, width, &mut premiums[..s]);
    Scheme {
        classes,
        columns,
        start,
        horizon,
        rules,
        lowers,
        uppers,
        premiums,
    }
}
