// The set-chain of document 01 as mathematics: the definitions stand in specs/, the theorems in proofs/.
#![tactic(auto)]

// ONE, a billion parts, is the whole of a share (document 01, "Units and the scheme").
pub const ONE: u64 = 1_000_000_000;

// CENT, a cent in tenths of a cent: the unit in which money is answered (document 02, item 6).
pub const CENT: u64 = 10;
