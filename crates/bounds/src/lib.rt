// The bounds of a scheme: shares, means and totals, with what they promise (document 01, "Years").
#![tactic(auto)]

ghost use Rattle.std.specs.Prelude.{◌≡◌, false, true};
ghost use Rattle.scheme.specs.Number.{number_in};
ghost use Rattle.bounds_spec.specs.Answers.{bounds_answer_of, high_shares, low_shares, mean_answer, share_answer, sheet_cause, sheet_slice, total_answer};
ghost use Rattle.bounds_spec.specs.Table.{high_table, low_table, table_cause};
ghost use Rattle.bounds_spec.specs.Pooled.{Figure, PooledPromise, PooledSheetPromise, pooled_answer, pooled_sheet_cause, pooled_shares};
ghost use Rattle.bounds_spec.specs.Promises.{FiguresPromise, MeanPromise, SharePromise, SheetPromise, TotalPromise};
ghost use Rattle.bounds_spec.specs.Causes.{table_size};

pub use bounds_spec::Bounds;
use scheme::{Cause, Scheme};
use series::Rewards;

mod causes;
mod entries;
mod money;
mod payoffs;
mod pooled;
mod series;
mod sheet;
mod table;
mod year;
mod years;

// The share of a class after a number of years, in parts.
pub fn share(scheme: Scheme, class: u64, year: u64) -> Result<Bounds, Cause>
    ensures answer { bounds_answer_of result ≡ share_answer scheme class year }
    ensures promise { SharePromise scheme class year (bounds_answer_of result) }
{
    causes::check_share(scheme, class, year)?;
    let rewards = Rewards {
        gain: [0; 32],
        payoff: payoffs::share_payoff(class),
    };
    Ok(series::start_bounds(scheme, &rewards, year))
}

// The mean premium of a year, in cents.
pub fn mean(scheme: Scheme, year: u64) -> Result<Bounds, Cause>
    ensures answer { bounds_answer_of result ≡ mean_answer scheme year }
    ensures promise { MeanPromise scheme year (bounds_answer_of result) }
{
    causes::check_money(scheme, year)?;
    let rewards = Rewards {
        gain: [0; 32],
        payoff: money::in_tenths(scheme.premiums),
    };
    let tenths = series::start_bounds(scheme, &rewards, year);
    Ok(money::in_cents(tenths))
}

// The total of as many premiums as there are years, in cents.
pub fn total(scheme: Scheme, year: u64) -> Result<Bounds, Cause>
    ensures answer { bounds_answer_of result ≡ total_answer scheme year }
    ensures promise { TotalPromise scheme year (bounds_answer_of result) }
{
    causes::check_money(scheme, year)?;
    let rewards = Rewards {
        gain: money::in_tenths(scheme.premiums),
        payoff: [0; 32],
    };
    let tenths = series::start_bounds(scheme, &rewards, year);
    Ok(money::in_cents(tenths))
}

// A year's share sheet: the low and the high share of each class, in parts.
pub fn share_sheet(
    scheme: Scheme,
    year: u64,
    low: &mut [u64],
    high: &mut [u64],
) -> Result<(), Cause>
    ensures answer { number_in result ≡ sheet_cause scheme year low.old high.old }
    ensures lows { low.new ≡ sheet_slice (number_in result) (low_shares scheme year) low.old }
    ensures highs { high.new ≡ sheet_slice (number_in result) (high_shares scheme year) high.old }
    ensures promise { SheetPromise scheme year (number_in result) low.new high.new }
{
    causes::check_sheet(scheme, year, low.len(), high.len())?;
    sheet::write_shares(scheme, year, false, low);
    sheet::write_shares(scheme, year, true, high);
    Ok(())
}

// The share of a class after a number of years, in parts, pooled over a book.
pub fn pooled_share(scheme: Scheme, book: [u32; 32], class: u64, year: u64) -> Result<Bounds, Cause>
    ensures answer { bounds_answer_of result ≡ pooled_answer scheme book (Figure.share class) year }
    ensures promise { PooledPromise scheme book (Figure.share class) year (bounds_answer_of result) }
{
    causes::check_share(scheme, class, year)?;
    book::check(book, scheme.classes)?;
    let rewards = Rewards {
        gain: [0; 32],
        payoff: payoffs::share_payoff(class),
    };
    Ok(pooled::pooled_bounds(scheme, book, 1, &rewards, year))
}

// The mean premium of a year, in cents, pooled over a book.
pub fn pooled_mean(scheme: Scheme, book: [u32; 32], year: u64) -> Result<Bounds, Cause>
    ensures answer { bounds_answer_of result ≡ pooled_answer scheme book Figure.mean year }
    ensures promise { PooledPromise scheme book Figure.mean year (bounds_answer_of result) }
{
    causes::check_money(scheme, year)?;
    book::check(book, scheme.classes)?;
    let rewards = Rewards {
        gain: [0; 32],
        payoff: money::in_tenths(scheme.premiums),
    };
    Ok(pooled::pooled_bounds(scheme, book, setchain::CENT, &rewards, year))
}

// The total of as many premiums as there are years, in cents, pooled over a book.
pub fn pooled_total(scheme: Scheme, book: [u32; 32], year: u64) -> Result<Bounds, Cause>
    ensures answer { bounds_answer_of result ≡ pooled_answer scheme book Figure.total year }
    ensures promise { PooledPromise scheme book Figure.total year (bounds_answer_of result) }
{
    causes::check_money(scheme, year)?;
    book::check(book, scheme.classes)?;
    let rewards = Rewards {
        gain: money::in_tenths(scheme.premiums),
        payoff: [0; 32],
    };
    Ok(pooled::pooled_bounds(scheme, book, setchain::CENT, &rewards, year))
}

// A year's share sheet pooled over a book: the low and the high share of each class, in parts.
pub fn pooled_share_sheet(
    scheme: Scheme,
    book: [u32; 32],
    year: u64,
    low: &mut [u64],
    high: &mut [u64],
) -> Result<(), Cause>
    ensures answer { number_in result ≡ pooled_sheet_cause scheme book year low.old high.old }
    ensures lows { low.new ≡ sheet_slice (number_in result) (pooled_shares false scheme book year) low.old }
    ensures highs { high.new ≡ sheet_slice (number_in result) (pooled_shares true scheme book year) high.old }
    ensures promise { PooledSheetPromise scheme book year (number_in result) low.new high.new }
{
    causes::check_pooled_sheet(scheme, book, year, low.len(), high.len())?;
    pooled::write_pooled(scheme, book, year, false, low);
    pooled::write_pooled(scheme, book, year, true, high);
    Ok(())
}

// How many numbers all figures of a sheet are.
pub fn table_size(scheme: Scheme) -> usize
    ensures { result ≡ table_size scheme }
{
    let years = usize::from(scheme.horizon) + 1;
    let row = usize::from(scheme.classes) + 1;
    years * row + 1
}

// All figures of a sheet, low and high: for each year to the horizon the share of each class and the mean premium, last the horizon's total.
pub fn figures(scheme: Scheme, low: &mut [u64], high: &mut [u64]) -> Result<(), Cause>
    ensures answer { number_in result ≡ table_cause scheme low.old high.old }
    ensures lows { low.new ≡ sheet_slice (number_in result) (low_table scheme) low.old }
    ensures highs { high.new ≡ sheet_slice (number_in result) (high_table scheme) high.old }
    ensures promise { FiguresPromise scheme (number_in result) low.new high.new }
{
    causes::check_table(scheme, low.len(), high.len())?;
    table::write_table(scheme, false, low);
    table::write_table(scheme, true, high);
    Ok(())
}
