// The mixing check of a scheme: the first count of years in which every class can go to every class (document 02, items 3 and 11).
#![tactic(auto)]

ghost use Rattle.std.specs.Prelude.{◌≡◌};
ghost use Rattle.mixing_spec.specs.MixingAnswer.{mixing_answer_of, mixing_answer};

use scheme::{Cause, Scheme};

mod edges;
mod matrix;
mod powers;

// The first count of years, 1 to 1,024, that mixes the scheme's tight lower rows, or the cause.
pub fn mixing(scheme: Scheme) -> Result<u64, Cause>
    ensures { mixing_answer_of result ≡ mixing_answer scheme }
{
    acceptance::check(scheme)?;
    powers::first_count(edges::edges(scheme)).ok_or(Cause::NotMixing)
}
