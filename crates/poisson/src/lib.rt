// The bands of two claim frequencies (document 02, item 10).
// `as` stands between `usize` and another width, for which there is no `From`, and where a number is proved to fit a narrower one: what `TryFrom`
// answers could only be unwrapped.
#![tactic(auto)]

mod table;
mod values;

ghost use Rattle.std.specs.Prelude.{◌≡◌};
ghost use Rattle.scheme.specs.Number.{number_in};
ghost use Rattle.poisson_spec.specs.Answer.{columns_cause, frequency_cause, bands_answer_of, bands_answer, BandsPromise};

pub use poisson_spec::Bands;
use scheme::Cause;

// Cause 3: the columns are not 2 to 8.
fn check_columns(columns: u64) -> Result<(), Cause>
    ensures { number_in result ≡ columns_cause columns }
{
    if !(2..=u64::from(scheme::MOST_COLUMNS)).contains(&columns) {
        return Err(Cause::Size);
    }
    Ok(())
}

// Cause 21: a frequency is above its limit, or the first exceeds the second.
fn check_frequencies(first: u64, second: u64) -> Result<(), Cause>
    ensures { number_in result ≡ frequency_cause first second }
{
    if poisson_spec::MOST_FREQUENCY < second || second < first {
        return Err(Cause::Frequency);
    }
    Ok(())
}

// The bands of two claim frequencies in thousandths, 0 to 1,000, the smaller first, for 2 to 8 columns.
pub fn bands(first: u64, second: u64, columns: u64) -> Result<Bands, Cause>
    ensures answer { bands_answer_of result ≡ bands_answer first second columns }
    ensures promise { BandsPromise first second columns (bands_answer_of result).number (bands_answer_of result).lower (bands_answer_of result).upper }
{
    check_columns(columns)?;
    check_frequencies(first, second)?;
    let least = first as usize;
    let most = second as usize;
    let m = columns as usize;
    Ok(Bands {
        lower: values::ends(false, least, most, m),
        upper: values::ends(true, most, least, m),
    })
}
