// No code: numbers in bytes and bytes copied are defined in specs/, over any width; proofs/ has the laws that reading and putting rest on.
#![tactic(auto)]
