// No code: the three ready schemes, their scales, and what asking for one answers stand in specs/, the proof that each is accepted in proofs/.
#![tactic(auto)]
