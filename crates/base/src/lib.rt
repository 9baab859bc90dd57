// Decisions and list functions that every crate's definitions use: definitions and laws alone, in specs/ and proofs/.
#![tactic(auto)]

pub const BASE: u8 = 0;
