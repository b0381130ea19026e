// Prints the answers of every operation but the sheet's text on many records from standard input, each behind its length in two bytes,
// and on ready schemes. What it must print was written by the plain Rust version (rust/regenerate); rust/trials/src/bin/family.rs
// describes the lines.
#![tactic(auto)]

use answer::{Answer, bounds_of, length_of, passed};
use console::Output;
use payoffs::Payoff;
use record_parts::{Band, Opened, Reader};
use scheme::{Cause, Row, Scheme};
use std::io;

// The most bytes of a record, and five more.
const ROOM: usize = 460;

// One more than the most classes.
const SHARES: usize = 33;

mod answer;
mod books;
mod payoffs;

// The checksum of numbers of one width.
fn checksum_of<T: Copy + Into<u64>>(numbers: &[T]) -> u64 {
    numbers
        .iter()
        .fold(0, |sum, number| console::add(sum, (*number).into()))
}

// The rule row of a class.
fn rules(stdout: Output, bytes: &[u8], class: u64) -> io::Result<()> {
    print!(stdout; "RULES {class}")?;
    for rule in record_parts::rule_row(bytes, class) {
        print!(stdout; " {rule}")?;
    }
    println!(stdout)
}

// All bands; one column more than there can be is asked for.
fn bands(stdout: Output, bytes: &[u8]) -> io::Result<()> {
    print!(stdout; "BANDS")?;
    for column in 0..9 {
        if let Some(band) = record_parts::band_at(bytes, column) {
            print!(stdout; " {} {}", band.lower, band.upper)?;
        }
    }
    println!(stdout)
}

// What a reader handed out: a band's ends, or that there is no more.
fn handed_out(stdout: Output, band: Option<Band>) -> io::Result<()> {
    match band {
        Some(Band { lower, upper }) => print!(stdout; " {lower} {upper}"),
        None => print!(stdout; " -"),
    }
}

// A reader over the record, one call more than there can be columns, and the first band.
fn reader(stdout: Output, bytes: &[u8]) -> io::Result<()> {
    let Opened {
        checked,
        mut reader,
    } = Reader::open(bytes);
    print!(stdout; "READER {}", scheme::number_in(checked))?;
    for _ in 0..9 {
        handed_out(stdout, reader.next())?;
    }
    print!(stdout; " FIRST")?;
    handed_out(stdout, record_parts::first_band(bytes))?;
    println!(stdout)
}

// The record written in a version into a room of n bytes, and the length of what was written, if it was.
fn write(stdout: Output, scheme: Scheme, version: u64, n: usize) -> io::Result<Option<usize>> {
    let mut room = [170u8; ROOM];
    let out = &mut room[..n.min(ROOM)];
    let written = record_write::write(scheme, version, out);
    println!(stdout;
        "WRITE {version} {}{} {}",
        out.len(),
        length_of(written),
        console::checksum(out)
    )?;
    Ok(written.ok())
}

// The checksums of a row's lower and upper entries.
fn sums_of(row: Row) -> [u64; 2] {
    [checksum_of(&row.lower), checksum_of(&row.upper)]
}

// The interval row of a class, and its tight row.
fn row(stdout: Output, scheme: Scheme, class: u64) -> io::Result<()> {
    let interval = Answer(rows::interval_row(scheme, class).map(sums_of));
    println!(stdout; "INTERVAL {class}{interval}")?;
    let tight = Answer(rows::row(scheme, class).map(sums_of));
    println!(stdout; "ROW {class}{tight}")
}

// The figures of the low and the high step of a class.
fn figures_of(scheme: Scheme, payoff: [u64; 32], class: u64) -> Result<[u64; 2], Cause> {
    let low = step::low_step(scheme, payoff, class)?;
    let high = step::high_step(scheme, payoff, class)?;
    Ok([low.figure, high.figure])
}

// The low and the high step of a class at a kind of payoff.
fn step(stdout: Output, scheme: Scheme, number: u64, class: u64, kind: Payoff) -> io::Result<()> {
    let figures = Answer(figures_of(scheme, kind.payoffs(scheme, number), class));
    println!(stdout; "STEP {class} {}{figures}", kind.number())
}

// The years that are asked for: the first three, the horizon, and one year beyond it.
fn years(scheme: Scheme) -> [u64; 5] {
    let horizon = u64::from(scheme.horizon);
    [0, 1, 2, horizon, horizon + 1]
}

// What is asked of a class: its interval row and its tight row, its steps at all kinds of payoff, its shares, and the chances of having reached it.
fn of_class(stdout: Output, scheme: Scheme, number: u64, class: u64) -> io::Result<()> {
    row(stdout, scheme, class)?;
    for kind in payoffs::KINDS {
        step(stdout, scheme, number, class, kind)?;
    }
    for year in years(scheme) {
        let share = bounds_of(bounds::share(scheme, class, year));
        println!(stdout; "SHARE {class} {year}{share}")?;
    }
    for year in years(scheme) {
        let reached = bounds_of(reached::reached(scheme, class, year));
        println!(stdout; "REACHED {class} {year}{reached}")?;
    }
    Ok(())
}

// A share sheet into slices of a and b numbers, at most one more than there can be classes.
// Not one function with `pooled_sheet` by a closure, whose bound would ask it to be callable at any slices.
fn share_sheet(stdout: Output, scheme: Scheme, year: u64, a: usize, b: usize) -> io::Result<()> {
    let mut lows = [7u64; SHARES];
    let mut highs = [7u64; SHARES];
    let low = &mut lows[..a.min(SHARES)];
    let high = &mut highs[..b.min(SHARES)];
    let answer = passed(bounds::share_sheet(scheme, year, low, high));
    println!(stdout;
        "SHARES {year}{answer} {} {}",
        checksum_of(low),
        checksum_of(high)
    )
}

// What is asked of a year: mean, total, and share sheets of the right and of wrong lengths.
fn of_year(stdout: Output, scheme: Scheme, year: u64) -> io::Result<()> {
    println!(stdout; "MEAN {year}{}", bounds_of(bounds::mean(scheme, year)))?;
    println!(stdout; "TOTAL {year}{}", bounds_of(bounds::total(scheme, year)))?;
    let s = usize::from(scheme.classes);
    for (a, b) in [(s, s), (s, s + 1), (s / 2, s)] {
        share_sheet(stdout, scheme, year, a, b)?;
    }
    Ok(())
}

// The record written in a version into a room for any record and, where there is such a version, into rooms of its length and of one byte less.
fn writes(stdout: Output, scheme: Scheme, version: u64) -> io::Result<()> {
    if let Some(length) = write(stdout, scheme, version, ROOM)? {
        write(stdout, scheme, version, length)?;
        write(stdout, scheme, version, length.saturating_sub(1))?;
    }
    Ok(())
}

// What is asked of an accepted record; the versions are both that there are, and some that there are not.
fn accepted(stdout: Output, scheme: Scheme, number: u64, bytes: &[u8]) -> io::Result<()> {
    let s = u64::from(scheme.classes);
    let beyond = s + 1;
    let start = u64::from(scheme.start);
    for class in [start, s, beyond] {
        rules(stdout, bytes, class)?;
    }
    for version in [1, 2, 0, 3, 257] {
        writes(stdout, scheme, version)?;
    }
    let count = Answer(mixing::mixing(scheme).map(|count| [count]));
    println!(stdout; "MIXING{count}")?;
    for class in [0, 1, start, s, beyond] {
        of_class(stdout, scheme, number, class)?;
    }
    for year in years(scheme) {
        of_year(stdout, scheme, year)?;
    }
    books::books(stdout, scheme, number)
}

// The lines of one record.
fn one(stdout: Output, number: u64, bytes: &[u8]) -> io::Result<()> {
    let read = record::read(bytes);
    println!(stdout; "RECORD {number} {}{}", bytes.len(), passed(read))?;
    rules(stdout, bytes, 0)?;
    rules(stdout, bytes, 1)?;
    bands(stdout, bytes)?;
    reader(stdout, bytes)?;
    if let Ok(scheme) = read {
        accepted(stdout, scheme, number, bytes)?;
    }
    Ok(())
}

// The length and the checksum of a scheme's record in version 2.
fn label(stdout: Output, scheme: Scheme) -> io::Result<()> {
    let mut out = [0u8; 455];
    let length = record_write::write(scheme, 2, &mut out).unwrap_or(0);
    print!(stdout;
        " {length} {}",
        console::checksum(console::front(&out, length))
    )
}

// A ready scheme's record: its length and checksum in both versions, two of its rule rows, and two premiums.
fn of_ready(stdout: Output, scheme: Scheme) -> io::Result<()> {
    let mut out = [0u8; 455];
    let written = record_write::write(scheme, 1, &mut out);
    let bytes = console::front(&out, written.unwrap_or(0));
    print!(stdout; "{} {}", length_of(written), console::checksum(bytes))?;
    label(stdout, scheme)?;
    println!(stdout)?;
    rules(stdout, bytes, 1)?;
    rules(stdout, bytes, 10)?;
    println!(stdout; "PREMIUM 1 {}", scheme.premiums[0])?;
    println!(stdout; "PREMIUM 18 {}", scheme.premiums[17])
}

// A ready scheme, or the cause.
fn ready(stdout: Output, number: u64, base: u64) -> io::Result<()> {
    print!(stdout; "READY {number} {base}")?;
    match ready::ready(number, base) {
        Ok(scheme) => of_ready(stdout, scheme),
        Err(cause) => println!(stdout; " NO {}", cause.number()),
    }
}

// Ready schemes at the edges of their number and base.
fn ready_schemes(stdout: Output) -> io::Result<()> {
    for (number, base) in [
        (0, 2_500_001),
        (1, 0),
        (1, 2_500_000),
        (2, 999),
        (2, 2_500_001),
        (3, 123_457),
        (3, 4_000_000_000),
        (4, 0),
        (1, 100_000),
        (3, 2_500_000),
        (3, 2_500_001),
    ] {
        ready(stdout, number, base)?;
    }
    Ok(())
}

// All records, numbered from 1, and the ready schemes.
fn all(stdout: Output, input: &[u8]) -> io::Result<()> {
    let mut at: usize = 0;
    let mut number: u64 = 0;
    // A `while`, since each turn moves on by the length of the record that it read, as no range does.
    while 2 <= input.len() - at {
        let bytes = console::record_at(input, at);
        at += 2 + bytes.len();
        number += 1;
        one(stdout, number, bytes)?;
    }
    ready_schemes(stdout)
}

fn main(rt: HostRuntime) {
    let mut input = [0u8; 65_536];
    let Ok(length) = console::read_all(rt.stdin(), rt.stderr(), b"family", &mut input) else {
        return;
    };
    // Each write to standard output is passed over where it fails, so that nothing comes back from here.
    let _ = all(Output(rt.stdout()), console::front(&input, length));
}
