// Figures of a record pooled over a lent book, and two lent books joined: of a book what is missing counts as 0, and what lies beyond 32 is ignored.
ghost use Rattle.std.specs.Prelude.{◌≡◌, []};
ghost use Rattle.scheme.specs.Number.{number_in};
ghost use Rattle.book_spec.specs.Book.{join_answer_of};
ghost use Rattle.bounds_spec.specs.Answers.{bounds_answer_of};
ghost use Rattle.bounds_spec.specs.Pooled.{Figure, pooled_sheet_cause};
ghost use Rattle.joguyvi_spec.specs.Buffers.{BufferPost};
ghost use Rattle.joguyvi_spec.specs.Books.{JoinCall, lent_answer, PooledCall, PooledSheetCall, put_book_number};

use crate::figures::put_bounds;
use bounds::Bounds;
use joguyvi_buffers::padded_32;
use scheme::{Cause, Scheme, check_slice};

// An answer over a lent book: 13 where the book is not of 32 counts, after the answer's own causes.
fn lent_answer(book: &[u32], answer: Result<Bounds, Cause>) -> Result<Bounds, Cause>
    ensures { bounds_answer_of result ≡ lent_answer book.now (bounds_answer_of answer) }
{
    let bounds = answer?;
    check_slice(32, book.len())?;
    Ok(bounds)
}

// The pooled share of a class after a number of years, in parts, into a buffer of 2 numbers.
pub fn pooled_share(
    bytes: &[u8],
    book: &[u32],
    class: u64,
    year: u64,
    out: &mut [u64],
) -> Result<(), Cause>
    ensures { PooledCall (Figure.share class) bytes.now book.now year out.old (number_in result) out.new }
{
    let pooled = bounds::pooled_share(record::read(bytes)?, padded_32(book, 0), class, year);
    put_bounds(lent_answer(book, pooled), out)
}

// The pooled mean premium of a year, in cents, into a buffer of 2 numbers.
pub fn pooled_mean(bytes: &[u8], book: &[u32], year: u64, out: &mut [u64]) -> Result<(), Cause>
    ensures { PooledCall Figure.mean bytes.now book.now year out.old (number_in result) out.new }
{
    let pooled = bounds::pooled_mean(record::read(bytes)?, padded_32(book, 0), year);
    put_bounds(lent_answer(book, pooled), out)
}

// The pooled total of as many premiums as there are years, in cents, into a buffer of 2 numbers.
pub fn pooled_total(bytes: &[u8], book: &[u32], year: u64, out: &mut [u64]) -> Result<(), Cause>
    ensures { PooledCall Figure.total bytes.now book.now year out.old (number_in result) out.new }
{
    let pooled = bounds::pooled_total(record::read(bytes)?, padded_32(book, 0), year);
    put_bounds(lent_answer(book, pooled), out)
}

// The causes of a pooled share sheet into slices that no scheme has: the sheet's own, or 13.
fn check_empty_sheet(scheme: Scheme, counts: [u32; 32], year: u64) -> Result<(), Cause>
    ensures { number_in result ≡ pooled_sheet_cause scheme counts year [] [] }
{
    bounds::pooled_share_sheet(scheme, counts, year, &mut [], &mut [])
}

// The pooled shares of all classes after a number of years, in parts, into two buffers of as many numbers as there are classes.
pub fn pooled_share_sheet(
    bytes: &[u8],
    book: &[u32],
    year: u64,
    low: &mut [u64],
    high: &mut [u64],
) -> Result<(), Cause>
    ensures { PooledSheetCall bytes.now book.now year low.old high.old (number_in result) low.new high.new }
{
    let scheme = record::read(bytes)?;
    let counts = padded_32(book, 0);
    if book.len() != 32 {
        return check_empty_sheet(scheme, counts, year);
    }
    bounds::pooled_share_sheet(scheme, counts, year, low, high)
}

// Two books of 32 counts joined, all counts added, into a buffer of 32.
pub fn join(first: &[u32], second: &[u32], out: &mut [u32]) -> Result<(), Cause>
    ensures { JoinCall first.now second.now out.old (number_in result) out.new }
{
    let joined = book::join(padded_32(first, 0), padded_32(second, 0));
    put_book(joined, first.len(), second.len(), out)
}

// Puts a joined book into a buffer of 32 counts; the books were lent in buffers of two lengths.
fn put_book(
    answer: Result<[u32; 32], Cause>,
    first: usize,
    second: usize,
    out: &mut [u32],
) -> Result<(), Cause>
    ensures { BufferPost (put_book_number (join_answer_of answer) first second out.old) (join_answer_of answer).book out.old (number_in result) out.new }
{
    let book = answer?;
    scheme::check_slices(32, first, second)?;
    check_slice(32, out.len())?;
    out.copy_from_slice(&book);
    Ok(())
}
