// What a call for bounds answers. The definitions of all answers and what they promise stand in specs/, the proof that they keep it in proofs/.
#![tactic(auto)]

// The bounds of a figure: the lowest and the highest that any choice brings.
#[derive(Clone, Copy)]
pub struct Bounds {
    pub low: u64,
    pub high: u64,
}
