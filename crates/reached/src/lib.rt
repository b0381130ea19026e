// The chance of having reached a class (document 02, item 9): the share of the class in the scheme in which nobody leaves it.
// `as` stands between `usize` and another width, for which there is no `From`, and where a number is proved to fit a narrower one: what `TryFrom`
// answers could only be unwrapped.
#![tactic(auto)]

ghost use Rattle.std.specs.Prelude.{◌≡◌};
ghost use Rattle.bounds_spec.specs.Answers.{bounds_answer_of};
ghost use Rattle.bounds_spec.specs.Reached.{ReachedPromise, reached_answer};
ghost use Rattle.reached.specs.Staying.{StayingRules, staying_rule};

pub use bounds_spec::Bounds;
use scheme::{Cause, Scheme};

// A rule that leads to one of the classes leads to the class itself; one that leads to none is left as it is, so that its cause is found.
fn staying_rule(rule: u8, classes: u8, class: u8) -> u8
    ensures { result ≡ staying_rule classes class rule }
{
    if scheme::outside(rule, classes) {
        return rule;
    }
    class
}

// The rules, with those of one class led to the class itself.
fn staying_rules(rules: [u8; 256], classes: u8, class: u64) -> [u8; 256]
    ensures { StayingRules classes class rules result }
{
    let mut staying = rules;
    if scheme::class_out(scheme::MOST_CLASSES, class) {
        return staying;
    }
    let first = (class - 1) as usize * scheme::CELL_STRIDE;
    for rule in &mut staying[first..first + scheme::CELL_STRIDE] {
        *rule = staying_rule(*rule, classes, class as u8);
    }
    staying
}

// The chance of having stood in a class at least once by a year, in parts.
pub fn reached(scheme: Scheme, class: u64, year: u64) -> Result<Bounds, Cause>
    ensures answer { bounds_answer_of result ≡ reached_answer scheme class year }
    ensures promise { ReachedPromise scheme class year (bounds_answer_of result) }
{
    let staying = Scheme {
        rules: staying_rules(scheme.rules, scheme.classes, class),
        ..scheme
    };
    bounds::share(staying, class, year)
}
