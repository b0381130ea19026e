// What the one-year step answers, and the limit of its payoffs. The answer and its causes are defined in specs/, the figures and the rows that reach them in crate `setchain`.
#![tactic(auto)]

// The limit of a payoff in the one-year step (document 02, item 6).
pub const MOST_PAYOFF: u64 = 10_000_000_000;

// The one-year step of a class: the figure, and a row that reaches it.
#[derive(Clone, Copy)]
pub struct Step {
    pub figure: u64,
    pub row: [u64; 32],
}
