// Why Sweep would drop a clause or take literals out of it: theorems alone, in proofs/.
#![tactic(auto)]

pub const REASONS: u8 = 0;
