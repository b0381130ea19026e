// Prints the sheets of many records from standard input, each behind its length in two bytes. What it must print was written by the
// plain Rust version (rust/regenerate): a sheet of at most 1,000 bytes whole, of a longer one its length and a checksum.
#![tactic(auto)]

use console::Output;
use std::io;

// The text whole, or its length and checksum.
fn show(stdout: Output, text: &[u8]) -> io::Result<()> {
    if text.len() <= 1000 {
        return stdout.write_all(text);
    }
    println!(stdout;
        "LENGTH {} CHECKSUM {}",
        text.len(),
        console::checksum(text)
    )
}

// The sheet's text in a slice, or the cause for which it does not fit there.
fn text_in(stdout: Output, bytes: &[u8], out: &mut [u8]) -> io::Result<()> {
    match sheet_text::sheet(bytes, out) {
        Ok(length) => show(stdout, console::front(out, length)),
        Err(cause) => println!(stdout; "NO {}", cause.number()),
    }
}

// The sheet of one record, in a slice that has room for every sheet, and in one of ten bytes.
fn one(stdout: Output, bytes: &[u8]) -> io::Result<()> {
    let mut out = [0u8; 132_862];
    text_in(stdout, bytes, &mut out)?;
    let mut short = [0u8; 10];
    text_in(stdout, bytes, &mut short)
}

// All records.
fn all(stdout: Output, input: &[u8]) -> io::Result<()> {
    let mut at: usize = 0;
    // A `while`, since each turn moves on by the length of the record that it read, as no range does.
    while 2 <= input.len() - at {
        let bytes = console::record_at(input, at);
        at += 2 + bytes.len();
        one(stdout, bytes)?;
    }
    Ok(())
}

fn main(rt: HostRuntime) {
    let mut input = [0u8; 65_536];
    let Ok(length) = console::read_all(rt.stdin(), rt.stderr(), b"sheets", &mut input) else {
        return;
    };
    // Each write to standard output is passed over where it fails, so that nothing comes back from here.
    let _ = all(Output(rt.stdout()), console::front(&input, length));
}
