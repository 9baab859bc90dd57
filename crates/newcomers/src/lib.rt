// What a learnt clause says that Sweep's rule has shortened or dropped: theorems alone, in proofs/.
#![tactic(auto)]

pub const NEWCOMERS: u8 = 0;
