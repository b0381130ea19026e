// The acceptance of a scheme (document 01, "When a call is declined").
#![tactic(auto)]

ghost use Rattle.std.specs.Prelude.{◌≡◌};
ghost use Rattle.scheme.specs.Cause.{cause_of};
ghost use Rattle.scheme.specs.Number.{number_in};

use scheme::{Cause, Scheme};

mod tests;

// The first cause that applies to the scheme, tests in their order.
pub fn check(scheme: Scheme) -> Result<(), Cause>
    ensures { number_in result ≡ cause_of scheme }
{
    let classes = scheme.classes;
    let columns = scheme.columns;
    tests::check_form(classes, columns, scheme.start, scheme.horizon)?;
    tests::check_rules(&scheme.rules, classes, columns)?;
    tests::check_bands(&scheme.lowers, &scheme.uppers, columns)?;
    tests::check_premiums(&scheme.premiums, classes)
}
