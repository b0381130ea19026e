// Shares, means, totals, share sheets, the same pooled over a book, chances of having reached a class, and whole sheets of a record,
// for C, and two books joined: each function answers 0 or the cause's number, and fills the lent buffers only where it answers 0.
#![tactic(auto)]

ghost use Rattle.joguyvi_spec.specs.Figures.{MeanCall, ReachedCall, ShareCall, TotalCall};
ghost use Rattle.bounds_spec.specs.Pooled.{Figure};
ghost use Rattle.joguyvi_spec.specs.Books.{JoinCall, PooledCall, PooledSheetCall};
ghost use Rattle.joguyvi_spec.specs.Shares.{ShareSheetCall};
ghost use Rattle.joguyvi_spec.specs.Texts.{SheetCall};

use scheme::number_in;

mod books;
mod figures;
mod texts;

// The low and the high share of a class after a number of years, in parts, into a buffer of 2 numbers.
#[unsafe(no_mangle)]
pub extern "C" fn joguyvi_share(bytes: &[u8], class: u64, year: u64, out: &mut [u64]) -> u8
    ensures { ShareCall bytes.now class year out.old result out.new }
{
    number_in(figures::share(bytes, class, year, out))
}

// The low and the high chance of having reached a class by a year, in parts, into a buffer of 2 numbers.
#[unsafe(no_mangle)]
pub extern "C" fn joguyvi_reached(bytes: &[u8], class: u64, year: u64, out: &mut [u64]) -> u8
    ensures { ReachedCall bytes.now class year out.old result out.new }
{
    number_in(figures::reached(bytes, class, year, out))
}

// The low and the high mean premium of a year, in cents, into a buffer of 2 numbers.
#[unsafe(no_mangle)]
pub extern "C" fn joguyvi_mean(bytes: &[u8], year: u64, out: &mut [u64]) -> u8
    ensures { MeanCall bytes.now year out.old result out.new }
{
    number_in(figures::mean(bytes, year, out))
}

// The low and the high total of as many premiums as there are years, in cents, into a buffer of 2 numbers.
#[unsafe(no_mangle)]
pub extern "C" fn joguyvi_total(bytes: &[u8], year: u64, out: &mut [u64]) -> u8
    ensures { TotalCall bytes.now year out.old result out.new }
{
    number_in(figures::total(bytes, year, out))
}

// The low and the high shares of all classes after a number of years, in parts, into two buffers of as many numbers as there are classes.
#[unsafe(no_mangle)]
pub extern "C" fn joguyvi_share_sheet(
    bytes: &[u8],
    year: u64,
    low: &mut [u64],
    high: &mut [u64],
) -> u8
    ensures { ShareSheetCall bytes.now year low.old high.old result low.new high.new }
{
    number_in(figures::share_sheet(bytes, year, low, high))
}

// The low and the high share of a class after a number of years, in parts, pooled over a book of 32 counts, into a buffer of 2 numbers.
#[unsafe(no_mangle)]
pub extern "C" fn joguyvi_pooled_share(
    bytes: &[u8],
    book: &[u32],
    class: u64,
    year: u64,
    out: &mut [u64],
) -> u8
    ensures { PooledCall (Figure.share class) bytes.now book.now year out.old result out.new }
{
    number_in(books::pooled_share(bytes, book, class, year, out))
}

// The low and the high mean premium of a year, in cents, pooled over a book of 32 counts, into a buffer of 2 numbers.
#[unsafe(no_mangle)]
pub extern "C" fn joguyvi_pooled_mean(bytes: &[u8], book: &[u32], year: u64, out: &mut [u64]) -> u8
    ensures { PooledCall Figure.mean bytes.now book.now year out.old result out.new }
{
    number_in(books::pooled_mean(bytes, book, year, out))
}

// The low and the high total of as many premiums as there are years, in cents, pooled over a book of 32 counts, into a buffer of 2 numbers.
#[unsafe(no_mangle)]
pub extern "C" fn joguyvi_pooled_total(bytes: &[u8], book: &[u32], year: u64, out: &mut [u64]) -> u8
    ensures { PooledCall Figure.total bytes.now book.now year out.old result out.new }
{
    number_in(books::pooled_total(bytes, book, year, out))
}

// The low and the high shares of all classes after a number of years, in parts, pooled over a book of 32 counts,
// into two buffers of as many numbers as there are classes.
#[unsafe(no_mangle)]
pub extern "C" fn joguyvi_pooled_share_sheet(
    bytes: &[u8],
    book: &[u32],
    year: u64,
    low: &mut [u64],
    high: &mut [u64],
) -> u8
    ensures { PooledSheetCall bytes.now book.now year low.old high.old result low.new high.new }
{
    number_in(books::pooled_share_sheet(bytes, book, year, low, high))
}

// Two books of 32 counts joined, all counts added, into a buffer of 32.
#[unsafe(no_mangle)]
pub extern "C" fn joguyvi_join(first: &[u32], second: &[u32], out: &mut [u32]) -> u8
    ensures { JoinCall first.now second.now out.old result out.new }
{
    number_in(books::join(first, second, out))
}

// The sheet's text of any bytes, REFUSED line and all, and its length into a buffer of 1 number.
#[unsafe(no_mangle)]
pub extern "C" fn joguyvi_sheet(bytes: &[u8], out: &mut [u8], length: &mut [u64]) -> u8
    ensures { SheetCall bytes.now out.old length.old result out.new length.new }
{
    number_in(texts::sheet(bytes, out, length))
}
