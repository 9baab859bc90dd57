// The shares of an assignment of a join: theorems alone, in specs/ and proofs/.
#![tactic(auto)]

pub const SHARES: u8 = 0;
