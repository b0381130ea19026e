// Opening books: the cause for which a book is not pooled, and two books joined (document 02, item 7).
// `as` stands between `usize` and another width, for which there is no `From`, and where a number is proved to fit a narrower one: what `TryFrom`
// answers could only be unwrapped.
#![tactic(auto)]

ghost use Rattle.std.specs.Prelude.{◌≡◌};
ghost use Rattle.setchain.specs.Sums.{at};
ghost use Rattle.scheme.specs.Number.{number_in};
ghost use Rattle.book_spec.specs.Book.{book_cause, join_answer_of, join_answer};

use scheme::Cause;

// The count at a place of a book, or 0 past its end.
pub fn count_at(book: &[u32], place: usize) -> u32
    ensures { result ≡ at book.now place }
{
    book.get(place).copied().unwrap_or(0)
}

// The first cause for which the counts of the first classes are not pooled.
pub fn check(book: [u32; 32], classes: u8) -> Result<(), Cause>
    ensures { number_in result ≡ book_cause classes book }
{
    let mut chambers: u64 = 0;
    for count in book.iter().take(usize::from(classes)) {
        let count = u64::from(*count);
        if book_spec::MOST_COUNT < count {
            return Err(Cause::Count);
        }
        chambers += count;
    }
    if chambers == 0 {
        return Err(Cause::NoChamber);
    }
    Ok(())
}

// All 32 counts of two books added, or the cause.
pub fn join(first: [u32; 32], second: [u32; 32]) -> Result<[u32; 32], Cause>
    ensures { join_answer_of result ≡ join_answer first second }
{
    let mut book = [0u32; 32];
    // By place: a loop over a zip with `iter_mut` was tried, and leaves no fact about the elements that it lent.
    for i in 0..book.len() {
        let chambers = u64::from(first[i]) + u64::from(second[i]);
        if book_spec::MOST_COUNT < chambers {
            return Err(Cause::Count);
        }
        book[i] = chambers as u32;
    }
    Ok(book)
}
