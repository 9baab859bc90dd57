// Theorems about the call on texts and the program, in proofs/: what is written has the satisfying assignments of what was read. No function is declared here.
#![tactic(auto)]

pub const EQUIVALENCE: u8 = 0;
