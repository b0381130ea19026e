// The scheme of document 01, its limits and its refusal numbers.
#![tactic(auto)]

ghost use Rattle.std.specs.Prelude.{◌≡◌};
ghost use Rattle.scheme.specs.Number.{cause_number, number_in};
ghost use Rattle.scheme.specs.Cause.{outside, sizes_cause, slice_cause, slices_cause};
ghost use Rattle.scheme.specs.Access.{class_bands};

// The limits of document 01, "Units and the scheme"; ONE is setchain's.
pub const MOST_CLASSES: u8 = 32;

pub const MOST_COLUMNS: u8 = 8;

pub const MOST_YEARS: u8 = 100;

pub const MOST_PREMIUM: u32 = 10_000_000;

// How far the cells of a class stand after those of the class before it.
pub const CELL_STRIDE: usize = 8;

// ONE as a band's end.
pub const MOST_BAND: u32 = 1_000_000_000;

// Why a call is declined: the causes of document 01, "When a call is declined", and of document 02, each with its number.
#[derive(Clone, Copy, Debug, PartialEq, Eq)]
pub enum Cause {
    // 1: no byte, or a version that there is not.
    Version,
    // 2: a length field that is not the length, or fewer bytes than a header has.
    LengthField,
    // 3: the classes or the columns are too few or too many.
    Size,
    // 4: a length that is not that of a record of its sizes.
    Length,
    // 5: the start is no class.
    Start,
    // 6: the horizon is too far.
    Horizon,
    // 7: a rule leads to no class.
    Rule,
    // 8: a band's ends are not in order, or above ONE.
    Band,
    // 9: the bands' ends do not enclose ONE.
    Sum,
    // 10: a premium or a payoff is too large.
    Money,
    // 11: the class that is asked for is none.
    Class,
    // 12: the year that is asked for is after the horizon.
    Year,
    // 13: a lent slice is of another length than is asked for.
    Slice,
    // 14: a ready scheme's number is none.
    Ready,
    // 15: a ready scheme's base is too large.
    Base,
    // 16: no count of years to the limit mixes.
    NotMixing,
    // 17: a record's last column is not that of its columns.
    LastColumn,
    // 18: a count of a book is too large.
    Count,
    // 19: no class of a book has a chamber.
    NoChamber,
    // 21: a claim frequency is too large, or the first exceeds the second.
    Frequency,
}

impl Cause {
    // The number of document 01 or 02.
    pub fn number(self) -> u8
        ensures { result ≡ cause_number self }
    {
        match self {
            Cause::Version => 1,
            Cause::LengthField => 2,
            Cause::Size => 3,
            Cause::Length => 4,
            Cause::Start => 5,
            Cause::Horizon => 6,
            Cause::Rule => 7,
            Cause::Band => 8,
            Cause::Sum => 9,
            Cause::Money => 10,
            Cause::Class => 11,
            Cause::Year => 12,
            Cause::Slice => 13,
            Cause::Ready => 14,
            Cause::Base => 15,
            Cause::NotMixing => 16,
            Cause::LastColumn => 17,
            Cause::Count => 18,
            Cause::NoChamber => 19,
            Cause::Frequency => 21,
        }
    }
}

// A bonus-malus scheme. What is stored beyond `classes` or `columns` is ignored.
#[derive(Clone, Copy)]
pub struct Scheme {
    // s, the number of classes.
    pub classes: u8,
    // m, the number of claim columns.
    pub columns: u8,
    // The start class.
    pub start: u8,
    // The horizon in years.
    pub horizon: u8,
    // The next class: of class i and column k at (i - 1) * 8 + k.
    pub rules: [u8; 256],
    // The lower end of each column's band, in parts. Two arrays, and not one of bands: `scheme_of` and all that is said of a scheme speak of them.
    pub lowers: [u32; 8],
    // The upper end of each column's band, in parts.
    pub uppers: [u32; 8],
    // The premium of class i at i - 1, in cents.
    pub premiums: [u32; 32],
}

// The row of a class: the lower and upper entries, with 0 beyond s. Two arrays, since C lends a buffer for each.
#[derive(Clone, Copy)]
pub struct Row {
    pub lower: [u64; 32],
    pub upper: [u64; 32],
}

// The number that a check declines with, or 0: what C is answered.
pub fn number_in(checked: Result<(), Cause>) -> u8
    ensures { result ≡ number_in checked }
{
    match checked {
        Ok(()) => 0,
        Err(cause) => cause.number(),
    }
}

// Whether x is not one of 1 to max.
pub fn outside(x: u8, max: u8) -> bool
    ensures { result ≡ outside max x }
{
    x == 0 || max < x
}

// Cause 3: s classes and m columns are too few or too many.
pub fn check_sizes(classes: u8, columns: u8) -> Result<(), Cause>
    ensures { number_in result ≡ sizes_cause classes columns }
{
    if outside(classes, MOST_CLASSES) || outside(columns, MOST_COLUMNS) {
        return Err(Cause::Size);
    }
    Ok(())
}

// Whether a class is not one of 1 to s: cause 11. Not one function with `outside`, which is over 8 bits: a generic one needs a trait that makes its
// values numbers.
pub fn class_out(classes: u8, class: u64) -> bool
    ensures { result ≡ outside classes class }
{
    class == 0 || u64::from(classes) < class
}

// Of a list of bands' ends those of the class at index i, as many as it has cells: all classes share them.
// By a test: over `get(..cells).unwrap_or(ends)` the proof did not close.
pub fn class_bands(ends: &[u32], cells: usize, i: usize) -> &[u32]
    ensures { result.now ≡ class_bands cells ends.now i }
{
    if ends.len() < cells {
        return ends;
    }
    &ends[..cells]
}

// Cause 13: a length that is not the size asked for.
pub fn check_slice(size: usize, given: usize) -> Result<(), Cause>
    ensures { number_in result ≡ slice_cause size given }
{
    if given != size {
        return Err(Cause::Slice);
    }
    Ok(())
}

// Cause 13 of two lengths.
pub fn check_slices(size: usize, one: usize, other: usize) -> Result<(), Cause>
    ensures { number_in result ≡ slices_cause size one other }
{
    check_slice(size, one)?;
    check_slice(size, other)
}
