// An opening book: how many chambers begin in each class, as 32 counts by value, that of class i at i - 1 (document 02, item 7).
// Its causes, joining, and what they tell are defined in specs/.
#![tactic(auto)]

// The most chambers that a class of a book may have.
pub const MOST_COUNT: u64 = 1_000_000;
