// The tables as what stands over slots, and the calls as lists of moves: definitions and laws alone, in specs/ and proofs/.
#![tactic(auto)]

pub const REFINEMENT: u8 = 0;
