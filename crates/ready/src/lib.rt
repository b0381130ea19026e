// The ready schemes of document 01: number 1, 2 or 3, with premiums from a base.
// `as` stands between `usize` and another width, for which there is no `From`, and where a number is proved to fit a narrower one: what `TryFrom`
// answers could only be unwrapped.
#![tactic(auto)]

ghost use Rattle.std.specs.Prelude.{◌≡◌, ◌/◌, ◌≤◌, ◌<◌};
ghost use Rattle.scheme.specs.Access.{CELL_PLACES};
ghost use Rattle.scheme.specs.Tables.{tab};
ghost use Rattle.ready_spec.specs.Scales.{classes_of, factor_of, tenths_of, premium_of};
ghost use Rattle.ready_spec.specs.Moves.{held, moved_class, Movable};
ghost use Rattle.ready_spec.specs.Ready.{ready_rule, ready_scheme};
ghost use Rattle.scheme.specs.Stored.{up_to, rules_up_to};
ghost use Rattle.scheme.specs.Number.{number_in};
ghost use Rattle.ready_spec.specs.Answer.{number_cause, base_cause, ready_answer_of, ready_answer};

use scheme::{Cause, MOST_BAND, Scheme};

// m, the number of claim columns.
const COLUMNS: u8 = 5;

// The start class.
const START: u8 = 10;

// The horizon in years.
const HORIZON: u8 = 40;

// The largest base, in cents.
const BASE_MOST: u64 = 2_500_000;

// The tenths of a percent of each class of ready scheme 1.
const SCALE_1: [u32; 18] = [
    792, 822, 855, 888, 938, 996, 1000, 1000, 1000, 1000, 1802, 1951, 2208, 2379, 2581, 2824, 3066,
    3579,
];

// The same of ready scheme 2.
const SCALE_2: [u32; 18] = [
    701, 731, 764, 802, 865, 919, 982, 1000, 1000, 1000, 1551, 1676, 1793, 1970, 2120, 2297, 2509,
    2944,
];

// The same of ready scheme 3.
const SCALE_3: [u32; 24] = [
    541, 570, 604, 642, 785, 839, 901, 975, 1000, 1000, 1471, 1596, 1740, 1890, 2040, 2217, 2336,
    2416, 2609, 2837, 3111, 3148, 3435, 3953,
];

// s, the number of classes. Which of the three is told by its number, and by no enum: `ready` is promised of every number, and C gives one.
fn classes_of(number: u64) -> u64
    ensures { result ≡ classes_of number }
{
    match number {
        1 | 2 => 18,
        _ => 24,
    }
}

// c, by which a claim raises the class.
fn factor_of(number: u64) -> u64
    ensures { result ≡ factor_of number }
{
    match number {
        1 => 3,
        _ => 4,
    }
}

// The class held to 1 to s.
fn held_to(s: u64, class: u64) -> u64
    requires { 1 ≤ s }
    ensures { result ≡ held s class }
{
    class.clamp(1, s)
}

// The class that k claims lead to.
fn moved(s: u64, c: u64, class: u64, k: u64) -> u64
    requires { Movable s c class k }
    ensures { result ≡ moved_class s c class k }
{
    if k == 0 {
        return held_to(s, class - 1);
    }
    held_to(s, class + (c * k - 1))
}

// The rule at a place of the rules.
fn rule_entry(number: u64, place: usize) -> u8
    requires { place < CELL_PLACES }
    ensures { result ≡ rules_up_to (classes_of number) 5 (ready_rule number) place }
{
    let s = classes_of(number);
    let i = (place / scheme::CELL_STRIDE) as u64;
    let k = (place % scheme::CELL_STRIDE) as u64;
    if s <= i {
        return 0;
    }
    if u64::from(COLUMNS) <= k {
        return 0;
    }
    moved(s, factor_of(number), i + 1, k) as u8
}

// The rules, class by class.
fn rules(number: u64) -> [u8; 256]
    ensures { result ≡ tab CELL_PLACES (rules_up_to (classes_of number) 5 (ready_rule number)) }
{
    let mut out = [0u8; 256];
    for (place, rule) in out.iter_mut().enumerate() {
        *rule = rule_entry(number, place);
    }
    out
}

// The tenths of a percent of class i + 1.
fn tenths(number: u64, i: usize) -> u64
    requires { i < classes_of number }
    ensures { result ≡ tenths_of number i }
{
    match number {
        1 => u64::from(SCALE_1[i]),
        2 => u64::from(SCALE_2[i]),
        _ => u64::from(SCALE_3[i]),
    }
}

// A thousandth, rounded down.
fn thousandth(product: u64) -> u32
    requires { product ≤ 9882500000 }
    ensures { result ≡ product / 1000 }
{
    (product / 1000) as u32
}

// The premium of class i + 1. That the base is at most 2,500,000 stands in three contracts: a type of bases would be made for these calls alone.
fn premium_entry(number: u64, base: u64, i: usize) -> u32
    requires { base ≤ 2500000 }
    ensures { result ≡ up_to (classes_of number) (premium_of number base) i }
{
    let s = classes_of(number);
    if s <= i as u64 {
        return 0;
    }
    thousandth(base * tenths(number, i))
}

// The premiums, class by class.
fn premiums(number: u64, base: u64) -> [u32; 32]
    requires { base ≤ 2500000 }
    ensures { result ≡ tab 32 (up_to (classes_of number) (premium_of number base)) }
{
    let mut out = [0u32; 32];
    for (i, premium) in out.iter_mut().enumerate() {
        *premium = premium_entry(number, base, i);
    }
    out
}

// The ready scheme.
fn made(number: u64, base: u64) -> Scheme
    requires { base ≤ 2500000 }
    ensures { result ≡ ready_scheme number base }
{
    let classes = classes_of(number);
    let rules = rules(number);
    let premiums = premiums(number, base);
    Scheme {
        classes: classes as u8,
        columns: COLUMNS,
        start: START,
        horizon: HORIZON,
        rules,
        lowers: [0; 8],
        uppers: [
            MOST_BAND, MOST_BAND, MOST_BAND, MOST_BAND, MOST_BAND, 0, 0, 0,
        ],
        premiums,
    }
}

// Cause 14: the ready scheme is not 1 to 3.
fn check_number(number: u64) -> Result<(), Cause>
    ensures { number_in result ≡ number_cause number }
{
    if !(1..=3).contains(&number) {
        return Err(Cause::Ready);
    }
    Ok(())
}

// Cause 15: the base is above its limit.
fn check_base(base: u64) -> Result<(), Cause>
    ensures { number_in result ≡ base_cause base }
{
    if BASE_MOST < base {
        return Err(Cause::Base);
    }
    Ok(())
}

// The ready scheme of a number, 1 to 3, with premiums from a base of 0 to 2,500,000 cents.
pub fn ready(number: u64, base: u64) -> Result<Scheme, Cause>
    ensures { ready_answer_of result ≡ ready_answer number base }
{
    check_number(number)?;
    check_base(base)?;
    Ok(made(number, base))
}
