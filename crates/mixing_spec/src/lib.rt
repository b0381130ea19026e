// No code: the answer of the mixing check and its cause are defined in specs/, paths and counts that mix in crate `setchain`.
#![tactic(auto)]
