// The parts of a record: the rule row of a class, the band of a column, and the band reader, which hands the bands out in order.
// `as` stands between `usize` and another width, for which there is no `From`, and where a number is proved to fit a narrower one: what `TryFrom`
// answers could only be unwrapped.
#![tactic(auto)]

ghost use Rattle.std.specs.Prelude.{◌≡◌, ◌-◌};
ghost use Rattle.std.specs.Iterator.{at_most};
ghost use Rattle.scheme.specs.Number.{number_in};
ghost use Rattle.record_spec.specs.Layout.{columns_in};
ghost use Rattle.record_spec.specs.Read.{read_cause};
ghost use Rattle.record_spec.specs.RuleRow.{rule_row_cause, rule_row};
ghost use Rattle.record_spec.specs.Reader.{stored, band_answer_of, BandAnswered, after_at, open_part};

pub use record_spec::Band;
use record_spec::{BAND_WIDTH, END_WIDTH};
use scheme::Cause;

// The first cause of a rule row: the record's, or that there is no such class.
fn check_rule_row(bytes: &[u8], class: u64) -> Result<(), Cause>
    ensures { number_in result ≡ rule_row_cause bytes.now class }
{
    record::check(bytes)?;
    if scheme::class_out(bytes[3], class) {
        return Err(Cause::Class);
    }
    Ok(())
}

// The rule row of a class: the part of the record that holds it, or an empty part for every cause.
// An empty part, and no Option, stands for every cause: so says `rule_row` of the definitions.
pub fn rule_row(bytes: &[u8], class: u64) -> &[u8]
    ensures { result.now ≡ rule_row bytes.now class }
{
    if check_rule_row(bytes, class).is_err() {
        return &bytes[..0];
    }
    let header = record::header_length(u64::from(bytes[0]));
    let columns = usize::from(bytes[4]);
    let start = header + ((class - 1) as usize) * columns;
    &bytes[start..start + columns]
}

// Whether a band is stored for the column.
fn stored(bytes: &[u8], column: usize) -> bool
    ensures { result ≡ stored bytes.now column }
{
    record::check(bytes).is_ok() && column < usize::from(bytes[4])
}

// The band of a column, or no more: what a reader at that column answers, with no reader.
pub fn band_at(bytes: &[u8], column: usize) -> Option<Band>
    ensures { BandAnswered bytes.now column (band_answer_of result) }
{
    if !stored(bytes, column) {
        return None;
    }
    let header = record::header_length(u64::from(bytes[0]));
    let classes = usize::from(bytes[3]);
    let columns = usize::from(bytes[4]);
    let place = header + classes * columns + column * BAND_WIDTH;
    let lower = big_endian::number_at(bytes, place, END_WIDTH);
    let upper = big_endian::number_at(bytes, place + END_WIDTH, END_WIDTH);
    Some(Band { lower, upper })
}

// A reader: the lent record, and the column whose band comes next.
#[derive(Clone, Copy)]
pub struct Reader<'a> {
    pub bytes: &'a [u8],
    pub at: usize,
}

// What opening a reader answers: the record's check and, since document 01 asks for a reader beside the cause's number, one over an empty part where it declines.
#[derive(Clone, Copy)]
pub struct Opened<'a> {
    pub checked: Result<(), Cause>,
    pub reader: Reader<'a>,
}

impl<'a> Reader<'a> {
    // Opens a reader over any bytes, at column 0.
    pub fn open(bytes: &'a [u8]) -> Opened<'a>
        ensures { (number_in result.checked ≡ read_cause bytes.now) × (result.reader.bytes.now ≡ open_part bytes.now)
            × (read_cause bytes.now ≡ 0 → result.reader.bytes ≡ bytes.entry) × (result.reader.at ≡ 0) }
    {
        let checked = record::check(bytes);
        let part = if checked.is_ok() { bytes } else { &bytes[..0] };
        Opened {
            checked,
            reader: Reader { bytes: part, at: 0 },
        }
    }
}

impl<'a> Iterator for Reader<'a> {
    type Item = Band;

    // What a call answers, and where the cursor stands then.
    ghost next_gives = { λ before answer after. (BandAnswered before.bytes.now before.at (band_answer_of answer))
        × (after.bytes ≡ before.bytes) × (after.at ≡ after_at before.bytes.now before.at) };

    // No more bands come than there are columns from the cursor on.
    ghost remaining = { λ reader. at_most (columns_in reader.bytes.now - reader.at) };

    // The next band, or no more; the cursor moves on where a band came.
    fn next(&mut self) -> Option<Band> {
        let band = band_at(self.bytes, self.at)?;
        self.at += 1;
        Some(band)
    }
}

// The first band of a record, by a reader opened over it.
pub fn first_band(bytes: &[u8]) -> Option<Band>
    ensures { BandAnswered bytes.now 0 (band_answer_of result) }
{
    Reader::open(bytes).reader.next()
}
