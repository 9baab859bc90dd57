// Why any list of calls keeps the loaded formula's satisfying assignments: definitions and theorems alone, in specs/ and proofs/.
#![tactic(auto)]

pub const MOVES: u8 = 0;
