// A record written into a lent slice, part by part. `SizeFits` stands in four contracts: a type of accepted schemes would be made for these calls alone.
// `as` stands between `usize` and another width, for which there is no `From`, and where a number is proved to fit a narrower one: what `TryFrom`
// answers could only be unwrapped.
ghost use Rattle.std.specs.Prelude.{◌≡◌, false, ◌+◌, ◌*◌, ◌≤◌, length, get_or};
ghost use Rattle.std.proofs.lemmas.List.Edits.{sets};
ghost use Rattle.scheme.specs.Accepted.{SizeFits};
ghost use Rattle.big_endian_spec.specs.Numbers.{be_bytes};
ghost use Rattle.record_spec.specs.Joined.{joined};
ghost use Rattle.record_spec.specs.Layout.{BAND_WIDTH, other_version, layout_of};
ghost use Rattle.record_spec.specs.Bytes.{header_of, rules_of, band_bytes, bands_of};
ghost use Rattle.record_spec.specs.Write.{record_of, record_length};

use record_spec::{BAND_WIDTH, END_WIDTH};
use scheme::Scheme;

// Puts the header of a scheme in a version into a slice of its record's length.
fn header(out: &mut [u8], version: u64, scheme: &Scheme)
    requires { SizeFits scheme.now × (other_version version ≡ false) × (length out.old ≡ record_length scheme.now version) }
    ensures { out.new ≡ sets out.old 0 (header_of (layout_of version) scheme.now) }
{
    let size = out.len();
    out[0] = version as u8;
    big_endian::put_number(out, 1, 2, size as u32);
    out[3] = scheme.classes;
    out[4] = scheme.columns;
    out[5] = scheme.start;
    out[6] = scheme.horizon;
    // By the number, as in `record::header_length`.
    if version == 2 {
        out[7] = scheme.columns - 1;
    }
}

// Puts the rules of a scheme, class by class, from place `from` on.
fn rules(out: &mut [u8], from: usize, scheme: &Scheme)
    requires { SizeFits scheme.now × (from + scheme.now.classes * scheme.now.columns ≤ length out.old) }
    ensures { out.new ≡ sets out.old from (rules_of scheme.now) }
{
    let s = usize::from(scheme.classes);
    let m = usize::from(scheme.columns);
    for i in 0..s {
        big_endian::copy(&scheme.rules, i * scheme::CELL_STRIDE, out, from + i * m, m);
    }
}

// Puts a band, lower and upper.
fn put_band(out: &mut [u8], at: usize, lower: u32, upper: u32)
    requires { at + BAND_WIDTH ≤ length out.old }
    ensures { out.new ≡ sets out.old at (band_bytes lower upper) }
{
    big_endian::put_number(out, at, END_WIDTH, lower);
    big_endian::put_number(out, at + END_WIDTH, END_WIDTH, upper);
}

// Puts the bands of a scheme, lower and upper, from place `from` on. By place, since two lists are read at one place.
fn bands(out: &mut [u8], from: usize, scheme: &Scheme)
    requires { SizeFits scheme.now × (from + scheme.now.columns * BAND_WIDTH ≤ length out.old) }
    ensures { out.new ≡ sets out.old from (bands_of scheme.now 0) }
{
    for k in 0..usize::from(scheme.columns) {
        put_band(
            out,
            from + k * BAND_WIDTH,
            scheme.lowers[k],
            scheme.uppers[k],
        );
    }
}

// Puts premiums of `width` bytes, from place `from` on.
fn premiums(out: &mut [u8], from: usize, width: usize, premiums: &[u32])
    requires { from + length premiums.now * width ≤ length out.old }
    ensures { out.new ≡ sets out.old from (joined (length premiums.now) (λ i. be_bytes width (get_or premiums.now i 0))) }
{
    for (j, premium) in premiums.iter().enumerate() {
        big_endian::put_number(out, from + j * width, width, *premium);
    }
}

// Fills a slice of the record's length with the record of a scheme in a version.
pub fn whole(scheme: Scheme, version: u64, out: &mut [u8])
    requires { SizeFits scheme × (other_version version ≡ false) × (length out.old ≡ record_length scheme version) }
    ensures { out.new ≡ record_of scheme version }
{
    let s = usize::from(scheme.classes);
    let m = usize::from(scheme.columns);
    header(out, version, &scheme);
    let header_length = record::header_length(version);
    let width = record::premium_width(version);
    rules(out, header_length, &scheme);
    let after = header_length + s * m;
    let money = after + m * BAND_WIDTH;
    bands(out, after, &scheme);
    premiums(out, money, width, &scheme.premiums[..s]);
}
