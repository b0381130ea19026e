// What each function for C and Rust answers, and what it leaves in lent buffers: the definitions stand in specs/, laws and worked calls in proofs/.
#![tactic(auto)]
