// The tests of acceptance, each over the numbers that it is about: lists, with how many of their numbers count, and not the scheme, since the laws
// behind them are about lists.
ghost use Rattle.std.specs.Prelude.{◌≡◌, ◌||◌, ◌+◌, ◌*◌, ◌≤◌, ltb, get_or, length};
ghost use Rattle.scheme.specs.Access.{CELL_STRIDE};
ghost use Rattle.setchain.specs.Sums.{sum_to};
ghost use Rattle.setchain.specs.Tests.{any_below};
ghost use Rattle.setchain.specs.Rows.{ONE};
ghost use Rattle.scheme.specs.FirstCause.{◌when◌};
ghost use Rattle.scheme.specs.Cause.{outside, band_test};
ghost use Rattle.scheme.specs.Number.{number_in};
ghost use Rattle.scheme.specs.Stages.{form_cause, band_cause, limit_cause};

use scheme::{Cause, outside};

// The first of causes 3, 5 and 6.
pub fn check_form(classes: u8, columns: u8, start: u8, horizon: u8) -> Result<(), Cause>
    ensures { number_in result ≡ form_cause classes columns start horizon }
{
    scheme::check_sizes(classes, columns)?;
    if outside(start, classes) {
        return Err(Cause::Start);
    }
    if scheme::MOST_YEARS < horizon {
        return Err(Cause::Horizon);
    }
    Ok(())
}

// Some rule from place `from` on, of as many as there are columns, is outside 1 to s.
fn row_out(rules: &[u8], from: usize, classes: u8, columns: u8) -> bool
    requires { from + columns ≤ length rules.now }
    ensures { result ≡ any_below columns (λ k. outside classes (get_or rules.now (from + k) 0)) }
{
    rules[from..from + usize::from(columns)]
        .iter()
        .any(|rule| outside(*rule, classes))
}

// Cause 7: some rule of some class is outside 1 to s.
pub fn check_rules(rules: &[u8], classes: u8, columns: u8) -> Result<(), Cause>
    requires { (classes * CELL_STRIDE ≤ length rules.now) × (columns ≤ CELL_STRIDE) }
    ensures { number_in result ≡ 7 when any_below classes (λ i. any_below columns (λ k. outside classes (get_or rules.now (i * CELL_STRIDE + k) 0))) }
{
    for i in 0..usize::from(classes) {
        if row_out(rules, i * scheme::CELL_STRIDE, classes, columns) {
            return Err(Cause::Rule);
        }
    }
    Ok(())
}

// A band's lower end is above its upper, or its upper above ONE.
fn band_bad(lower: u32, upper: u32) -> bool
    ensures { result ≡ band_test lower upper }
{
    upper < lower || scheme::MOST_BAND < upper
}

// Some column's band is bad.
fn band_out(lowers: &[u32], uppers: &[u32], columns: u8) -> bool
    requires { (columns ≤ length lowers.now) × (columns ≤ length uppers.now) }
    ensures { result ≡ any_below columns (λ k. band_test (get_or lowers.now k 0) (get_or uppers.now k 0)) }
{
    lowers
        .iter()
        .zip(uppers)
        .take(usize::from(columns))
        .any(|(lower, upper)| band_bad(*lower, *upper))
}

// The sum of a band's ends over the columns, in 64 bits.
fn sum(ends: &[u32], columns: u8) -> u64
    requires { columns ≤ length ends.now }
    ensures { result ≡ sum_to columns (λ k. get_or ends.now k 0) }
{
    ends[..usize::from(columns)]
        .iter()
        .map(|end| u64::from(*end))
        .sum()
}

// The lowers sum above ONE, or the uppers below.
fn sum_out(lowers: &[u32], uppers: &[u32], columns: u8) -> bool
    requires { (columns ≤ length lowers.now) × (columns ≤ length uppers.now) }
    ensures { result ≡ (ltb ONE (sum_to columns (λ k. get_or lowers.now k 0)) || ltb (sum_to columns (λ k. get_or uppers.now k 0)) ONE) }
{
    setchain::ONE < sum(lowers, columns) || sum(uppers, columns) < setchain::ONE
}

// The first of causes 8 and 9.
pub fn check_bands(lowers: &[u32], uppers: &[u32], columns: u8) -> Result<(), Cause>
    requires { (columns ≤ length lowers.now) × (columns ≤ length uppers.now) }
    ensures { number_in result ≡ band_cause columns (λ k. get_or lowers.now k 0) (λ k. get_or uppers.now k 0) }
{
    if band_out(lowers, uppers, columns) {
        return Err(Cause::Band);
    }
    if sum_out(lowers, uppers, columns) {
        return Err(Cause::Sum);
    }
    Ok(())
}

// Cause 10: some class's premium is above 10,000,000. Not one function with the step's test of payoffs, which have another width: each is one `any`.
pub fn check_premiums(premiums: &[u32], classes: u8) -> Result<(), Cause>
    requires { classes ≤ length premiums.now }
    ensures { number_in result ≡ limit_cause 10000000 premiums.now classes }
{
    let above = premiums[..usize::from(classes)]
        .iter()
        .any(|premium| scheme::MOST_PREMIUM < *premium);
    if above {
        return Err(Cause::Money);
    }
    Ok(())
}
