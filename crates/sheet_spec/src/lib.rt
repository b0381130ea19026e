// What the sheet of any bytes is, and the space that it takes: the definitions stand in specs/, the laws in proofs/.
#![tactic(auto)]
