// Why a Sweep keeps what can be reached over the two-literal clauses: definitions and theorems alone, in specs/ and proofs/.
#![tactic(auto)]

pub const REACH: u8 = 0;
