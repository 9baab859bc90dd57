// Theorems about lists of calls over a lent slice of stamp records, in proofs/: what stands has the satisfying assignments of the loaded text. No function is declared here.
#![tactic(auto)]

pub const RECORDED_CALLS: u8 = 0;
