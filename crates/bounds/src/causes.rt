// The causes for which a query of a scheme is declined, tests in their order (document 01, "When a call is declined").
ghost use Rattle.std.specs.Prelude.{◌≡◌, ltb};
ghost use Rattle.scheme.specs.FirstCause.{◌when◌};
ghost use Rattle.scheme.specs.Cause.{outside};
ghost use Rattle.scheme.specs.Number.{number_in};
ghost use Rattle.bounds_spec.specs.Pooled.{pooled_lengths_cause};
ghost use Rattle.bounds_spec.specs.Causes.{money_cause, share_cause, sheet_lengths_cause, table_lengths_cause};

use crate::table_size;
use scheme::{Cause, Scheme, check_slices};

// Cause 11: a class that is not one of 1 to s.
fn check_class(classes: u8, class: u64) -> Result<(), Cause>
    ensures { number_in result ≡ 11 when outside classes class }
{
    if scheme::class_out(classes, class) {
        return Err(Cause::Class);
    }
    Ok(())
}

// Cause 12: a year above the horizon.
fn check_year(horizon: u8, year: u64) -> Result<(), Cause>
    ensures { number_in result ≡ 12 when ltb horizon year }
{
    if u64::from(horizon) < year {
        return Err(Cause::Year);
    }
    Ok(())
}

// The first cause of a call about money.
pub fn check_money(scheme: Scheme, year: u64) -> Result<(), Cause>
    ensures { number_in result ≡ money_cause scheme year }
{
    acceptance::check(scheme)?;
    check_year(scheme.horizon, year)
}

// The first cause of a call about the share of a class.
pub fn check_share(scheme: Scheme, class: u64, year: u64) -> Result<(), Cause>
    ensures { number_in result ≡ share_cause scheme class year }
{
    acceptance::check(scheme)?;
    check_class(scheme.classes, class)?;
    check_year(scheme.horizon, year)
}

// The first cause of a call for a share sheet with slices of two lengths.
pub fn check_sheet(scheme: Scheme, year: u64, low: usize, high: usize) -> Result<(), Cause>
    ensures { number_in result ≡ sheet_lengths_cause scheme year low high }
{
    check_money(scheme, year)?;
    check_slices(usize::from(scheme.classes), low, high)
}

// The first cause of a call for a pooled share sheet with slices of two lengths.
pub fn check_pooled_sheet(
    scheme: Scheme,
    book: [u32; 32],
    year: u64,
    low: usize,
    high: usize,
) -> Result<(), Cause>
    ensures { number_in result ≡ pooled_lengths_cause scheme book year low high }
{
    check_money(scheme, year)?;
    book::check(book, scheme.classes)?;
    check_slices(usize::from(scheme.classes), low, high)
}

// The first cause of a call for all figures with slices of two lengths.
pub fn check_table(scheme: Scheme, low: usize, high: usize) -> Result<(), Cause>
    ensures { number_in result ≡ table_lengths_cause scheme low high }
{
    acceptance::check(scheme)?;
    check_slices(table_size(scheme), low, high)
}
