// Standard input for the programs, with words on standard error where it cannot be read, and what the check programs share: their standard
// output, the records of their input, and checksums.
#![tactic(auto)]

ghost use Rattle.std.specs.Prelude.{◌-◌, ◌≤◌, ◌≡◌, true, length, take, is_ok, IfOk, OnErr};
ghost use Rattle.console.specs.Input.{ReadInto, length_read};
ghost use Rattle.console.specs.Records.{record_at};
ghost use Rattle.console.specs.Checksum.{added, checksum_from};

use std::fmt::{self, Display};
use std::io;
use std::io::{Print, Read, Stderr, Stdin, Stdout};

// Where a read failed: how many bytes of the input the buffer has from before it, from its front on.
#[derive(Clone, Copy, Debug, PartialEq, Eq)]
pub struct ReadFailed {
    pub length: usize,
}

// One read more, put into the buffer behind the first `done` bytes: how many bytes came. The end of the input brings none.
fn more(mut input: Stdin, buffer: &mut [u8], done: usize) -> io::Result<usize>
    requires { done ≤ length buffer.old }
    ensures came { IfOk result (λ count. ReadInto done buffer.old buffer.new count) }
    ensures failed { OnErr result (ReadInto done buffer.old buffer.new 0) }
{
    let mut chunk = [0u8; 4096];
    let came = input.read(&mut chunk)?;
    let count = came.min(buffer.len() - done);
    big_endian::copy(&chunk, 0, buffer, done, count);
    Ok(count)
}

// Reads until the input ends or the buffer is full: how many bytes came. Bytes past them stay as they were.
fn fill(input: Stdin, buffer: &mut [u8]) -> Result<usize, ReadFailed>
    ensures { ReadInto 0 buffer.old buffer.new (length_read result) }
{
    let mut done: usize = 0;
    // No index is counted: a turn goes on by as many bytes as its read brought.
    while done < buffer.len() {
        let Ok(count) = more(input, buffer, done) else {
            return Err(ReadFailed { length: done });
        };
        if count == 0 {
            return Ok(done);
        }
        done += count;
    }
    Ok(done)
}

// All of standard input, or as much of it as the buffer holds; bytes past it stay as they were. Where a read failed the program says so on
// standard error.
pub fn read_all(
    input: Stdin,
    err: Stderr,
    program: &[u8],
    buffer: &mut [u8],
) -> Result<usize, ReadFailed>
    ensures { ReadInto 0 buffer.old buffer.new (length_read result) }
{
    let read = fill(input, buffer);
    if read.is_err() {
        // Where this cannot be written either, there is nobody left to tell.
        let _ = err.write_all(program);
        let _ = err.write_all(b": standard input could not be read\n");
    }
    read
}

// The first bytes of a text, or all where there are fewer.
pub fn front(text: &[u8], n: usize) -> &[u8]
    ensures { result.now ≡ take n text.now }
{
    text.get(..n).unwrap_or(text)
}

// The record that stands behind its length in two bytes, or as much of it as the input has.
pub fn record_at(input: &[u8], at: usize) -> &[u8]
    ensures { (result.now ≡ record_at input.now at) × (length result.now ≤ length input.now - at - 2) }
{
    if !big_endian::holds(input.len(), at, 2) {
        return &input[0..0];
    }
    // `as`: `usize` has no `From<u32>`.
    let length = big_endian::number_at(input, at, 2) as usize;
    front(&input[at + 2..], length)
}

// Standard output of a check program, written piece by piece: a word with the space before it, a space before a number, a number, an end of
// line. A piece that cannot be written is passed over, and those behind it are tried all the same: what was printed then differs from what
// must be printed.
#[derive(Clone, Copy)]
pub struct Output(pub Stdout);

// Whether a piece ends between two bytes.
fn parted(before: u8, byte: u8) -> bool {
    byte == b' ' || (before == b' ' && byte.is_ascii_digit())
}

impl fmt::Write for Output {
    fn write_str(&mut self, text: &str) -> fmt::Result {
        for piece in text
            .as_bytes()
            .chunk_by(|before, byte| !parted(*before, *byte))
        {
            let _ = self.0.write_all(piece);
        }
        Ok(())
    }
}

impl Print for Output {
    fn print<D: Display + Drop>(&self, value: D) -> io::Result<()>
        ensures { is_ok result ≡ true }
    {
        let mut output = *self;
        let _ = fmt::Write::write(&mut output, value);
        Ok(())
    }

    fn println<D: Display + Drop>(&self, value: D) -> io::Result<()>
        ensures { is_ok result ≡ true }
    {
        self.print(value)?;
        self.write_all(b"\n")
    }

    fn write_all(&self, bytes: &[u8]) -> io::Result<()>
        ensures { is_ok result ≡ true }
    {
        let _ = self.0.write_all(bytes);
        Ok(())
    }

    fn write_some(&self, bytes: &[u8]) -> io::Result<usize> {
        self.0.write_some(bytes)
    }
}

// The checksum with one number more.
pub fn add(sum: u64, x: u64) -> u64
    ensures { result ≡ added sum x }
{
    (sum % 4_294_967_291 * 16_777_619 + x % 4_294_967_291 + 1) % 4_294_967_291
}

// The checksum of a text.
pub fn checksum(text: &[u8]) -> u64
    ensures { result ≡ checksum_from 0 text.now }
{
    text.iter().fold(0, |sum, byte| add(sum, u64::from(*byte)))
}
