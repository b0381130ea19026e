// The payoff of a class's share as a figure vector (document 01, "Years").
// `as` stands between `usize` and another width, for which there is no `From`, and where a number is proved to fit a narrower one: what `TryFrom`
// answers could only be unwrapped.
ghost use Rattle.bounds.specs.Series.{SharePayoffPost};

// ONE at the class, 0 elsewhere, and everywhere where there is no such class.
pub fn share_payoff(class: u64) -> [u64; 32]
    ensures { SharePayoffPost class result }
{
    let mut payoff = [0u64; 32];
    if scheme::class_out(scheme::MOST_CLASSES, class) {
        return payoff;
    }
    payoff[(class - 1) as usize] = setchain::ONE;
    payoff
}
