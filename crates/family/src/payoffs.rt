// The kinds of payoff that steps are asked at.
// `as` stands between `usize` and another width, for which there is no `From`, and where a number is proved to fit a narrower one: what `TryFrom`
// answers could only be unwrapped.
use scheme::Scheme;
use std::array;

// A kind of payoff.
#[derive(Clone, Copy)]
pub enum Payoff {
    // The premium of each class, in thousandths of a cent.
    Premiums,
    // Numbers below 3, so that many classes pay alike.
    Alike,
    // Mixed numbers, but one too large at the last class.
    TooLarge,
    // Mixed numbers.
    Mixed,
}

// All kinds, in the order of their numbers.
pub const KINDS: [Payoff; 4] = [
    Payoff::Premiums,
    Payoff::Alike,
    Payoff::TooLarge,
    Payoff::Mixed,
];

impl Payoff {
    // The number by which the lines name the kind.
    pub fn number(self) -> u8 {
        // The number of a kind is its place in the enum.
        self as u8
    }

    // The payoff of a class of the scheme.
    fn of_class(self, class: u8, classes: u8, number: u64, premium: u32) -> u64 {
        let mixed = (6_180_339_887 * u64::from(class) + 2_718_281_828 * (number % 1_000_000_000))
            % 10_000_000_001;
        match self {
            Payoff::Premiums => 1000 * u64::from(premium),
            Payoff::Alike => mixed % 3,
            Payoff::TooLarge if class == classes => 10_000_000_001,
            Payoff::TooLarge | Payoff::Mixed => mixed,
        }
    }

    // The payoffs of all classes, with a payoff beyond s that no class may have.
    pub fn payoffs(self, scheme: Scheme, number: u64) -> [u64; 32] {
        let classes = scheme.classes;
        array::from_fn(|i| {
            let class = i as u8 + 1;
            if classes < class {
                return 40_000_000_000;
            }
            self.of_class(class, classes, number, scheme.premiums[i])
        })
    }
}
