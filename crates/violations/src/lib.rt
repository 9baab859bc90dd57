// Theorems about the refusals of a load, in proofs/: of all violations of a text, the one with the smallest offset is answered. No function is declared here.
#![tactic(auto)]

pub const VIOLATIONS: u8 = 0;
