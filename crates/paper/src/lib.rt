// Theorems about Stamp and Sweep, in proofs/: stamps, dropped clauses and removed literals are the paper's, on literals and on the records of the tables. No function is declared here.
#![tactic(auto)]

pub const PAPER: u8 = 0;
