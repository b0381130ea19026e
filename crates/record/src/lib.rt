// The record of document 01, and its version 2 of document 02, item 5: its layouts, the scheme in any bytes, and their cause.
#![tactic(auto)]

ghost use Rattle.std.specs.Prelude.{◌≡◌};
ghost use Rattle.scheme.specs.Number.{number_in};
ghost use Rattle.record_spec.specs.Read.{read_cause, read_answer_of, read_answer};
ghost use Rattle.record_spec.specs.Layout.{other_version, layout_of, header_length, length_of};

use scheme::{Cause, Scheme};

mod reading;

// Reads a record: any bytes, of any length.
pub fn read(bytes: &[u8]) -> Result<Scheme, Cause>
    ensures { read_answer_of result ≡ read_answer bytes.now }
{
    reading::check_frame(bytes)?;
    let scheme = reading::parsed(bytes);
    acceptance::check(scheme)?;
    Ok(scheme)
}

// The first cause of any bytes.
pub fn check(bytes: &[u8]) -> Result<(), Cause>
    ensures { number_in result ≡ read_cause bytes.now }
{
    reading::check_frame(bytes)?;
    acceptance::check(reading::parsed(bytes))
}

// Whether there is no such version. A version is a number, and no enum, here and below: what is promised holds of every number, and C gives one.
pub fn other_version(version: u64) -> bool
    ensures { result ≡ other_version version }
{
    !matches!(version, 1 | 2)
}

// The header's length in a version: the rules start there.
pub fn header_length(version: u64) -> usize
    ensures { result ≡ header_length (layout_of version) }
{
    match version {
        2 => record_spec::LABEL_HEADER,
        _ => record_spec::HEADER,
    }
}

// How many bytes a premium has in a version.
pub fn premium_width(version: u64) -> usize
    ensures { result ≡ (layout_of version).width }
{
    match version {
        2 => record_spec::LABEL_PREMIUM_WIDTH,
        _ => record_spec::PREMIUM_WIDTH,
    }
}

// The length of a record of a version, of s classes and m columns.
pub fn length_of(version: u64, classes: u8, columns: u8) -> usize
    ensures { result ≡ length_of (layout_of version) classes columns }
{
    let s = usize::from(classes);
    let m = usize::from(columns);
    let header = header_length(version);
    let width = premium_width(version);
    header + s * m + record_spec::BAND_WIDTH * m + width * s
}
