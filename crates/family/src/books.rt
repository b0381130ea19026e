// What is asked of books: pooled figures, and two books joined.
// `as` stands between `usize` and another width, for which there is no `From`, and where a number is proved to fit a narrower one: what `TryFrom`
// answers could only be unwrapped.
use crate::answer::{bounds_of, passed};
use crate::{SHARES, checksum_of};
use console::Output;
use scheme::Scheme;
use std::{array, io};

// A kind of book.
#[derive(Clone, Copy)]
enum Kind {
    // One policy, in the start class.
    Start,
    // Mixed counts.
    Mixed,
    // As many policies in each class as there may be.
    Most,
    // Mixed counts, but one too large at the last class.
    TooLarge,
    // No policies.
    Empty,
}

impl Kind {
    // The number by which the lines name the kind.
    fn number(self) -> u8 {
        // The number of a kind is its place in the enum.
        self as u8
    }

    // The count of a class of the scheme.
    fn of_class(self, class: u8, scheme: Scheme, number: u64) -> u32 {
        let mixed = (618_033 * u64::from(class) + 271_828 * (number % 1_000_000_000)) % 1_000_001;
        match self {
            Kind::Start => u32::from(class == scheme.start),
            Kind::Most => 1_000_000,
            Kind::TooLarge if class == scheme.classes => 1_000_001,
            Kind::Mixed | Kind::TooLarge => mixed as u32,
            Kind::Empty => 0,
        }
    }

    // The counts of all classes, and one beyond s.
    fn book(self, scheme: Scheme, number: u64, beyond: u32) -> [u32; 32] {
        array::from_fn(|i| {
            let class = i as u8 + 1;
            if scheme.classes < class {
                return beyond;
            }
            self.of_class(class, scheme, number)
        })
    }
}

// The pooled share of class s, the pooled mean and the pooled total of a year.
fn pooled(
    stdout: Output,
    scheme: Scheme,
    kind: Kind,
    book: [u32; 32],
    year: u64,
) -> io::Result<()> {
    let last = u64::from(scheme.classes);
    let share = bounds_of(bounds::pooled_share(scheme, book, last, year));
    let mean = bounds_of(bounds::pooled_mean(scheme, book, year));
    let total = bounds_of(bounds::pooled_total(scheme, book, year));
    println!(stdout; "POOLED {} {year}{share}{mean}{total}", kind.number())
}

// A pooled share sheet into slices of a and b numbers, at most one more than there can be classes.
// Not one function with `share_sheet` by a closure, whose bound would ask it to be callable at any slices.
fn pooled_sheet(
    stdout: Output,
    scheme: Scheme,
    kind: Kind,
    book: [u32; 32],
    year: u64,
    a: usize,
    b: usize,
) -> io::Result<()> {
    let mut lows = [7u64; SHARES];
    let mut highs = [7u64; SHARES];
    let low = &mut lows[..a.min(SHARES)];
    let high = &mut highs[..b.min(SHARES)];
    let answer = passed(bounds::pooled_share_sheet(scheme, book, year, low, high));
    let kind = kind.number();
    println!(stdout;
        "POOLSHARES {kind} {year}{answer} {} {}",
        checksum_of(low),
        checksum_of(high)
    )
}

// What is asked of a kind of book, with a count beyond s that no class may have.
fn of_kind(stdout: Output, scheme: Scheme, number: u64, kind: Kind) -> io::Result<()> {
    let book = kind.book(scheme, number, 4_294_967_295);
    let horizon = u64::from(scheme.horizon);
    let s = usize::from(scheme.classes);
    for year in [1, horizon, horizon + 1] {
        pooled(stdout, scheme, kind, book, year)?;
        pooled_sheet(stdout, scheme, kind, book, year, s, s)?;
        pooled_sheet(stdout, scheme, kind, book, year, s, s + 1)?;
    }
    Ok(())
}

// Two kinds of book joined, with a count beyond s; where they are not joined the checksum is that of zeros.
fn joined(
    stdout: Output,
    scheme: Scheme,
    number: u64,
    first: Kind,
    second: Kind,
    beyond: u32,
) -> io::Result<()> {
    let one = first.book(scheme, number, beyond);
    let other = second.book(scheme, number, beyond);
    let joined = book::join(one, other);
    let sums = joined.unwrap_or([0; 32]);
    println!(stdout;
        "JOIN {} {}{} {}",
        first.number(),
        second.number(),
        passed(joined),
        checksum_of(&sums)
    )
}

// All kinds of book, and some of them joined.
pub fn books(stdout: Output, scheme: Scheme, number: u64) -> io::Result<()> {
    for kind in [
        Kind::Start,
        Kind::Mixed,
        Kind::Most,
        Kind::TooLarge,
        Kind::Empty,
    ] {
        of_kind(stdout, scheme, number, kind)?;
    }
    for (first, second) in [
        (Kind::Start, Kind::Mixed),
        (Kind::Mixed, Kind::Mixed),
        (Kind::Most, Kind::Empty),
        (Kind::Most, Kind::Start),
    ] {
        joined(stdout, scheme, number, first, second, 0)?;
    }
    joined(
        stdout,
        scheme,
        number,
        Kind::Empty,
        Kind::Empty,
        4_294_967_295,
    )
}
