// Rounding outward, away from what a figure bounds (document 01, "One year").
#![tactic(auto)]

ghost use Rattle.std.specs.Prelude.{◌≡◌};
ghost use Rattle.setchain.specs.Rounding.{rounded};

// x over a unit: rounded down for a low figure, up for a high one; over no unit, 0.
// The side of a figure is a flag, here and in what calls this: definitions and laws speak of it by a truth value, once for both.
pub fn round(x: u64, unit: u64, high: bool) -> u64
    ensures { result ≡ rounded high unit x }
{
    if unit == 0 {
        0
    } else if high {
        x.div_ceil(unit)
    } else {
        x / unit
    }
}
