// Theorems about writing and loading, in proofs/: what is written reads back. No function is declared here.
#![tactic(auto)]

pub const ROUNDTRIP: u8 = 0;
