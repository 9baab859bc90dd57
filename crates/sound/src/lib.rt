// Why Sweep and Failed keep the satisfying assignments: definitions and theorems alone, in specs/ and proofs/.
#![tactic(auto)]

pub const SOUND: u8 = 0;
