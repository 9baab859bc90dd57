// The worked cases of document 01 as one lemma over a list of cases, about the definitions alone: proofs/Cases.antt.
#![tactic(auto)]

pub const CASES: u8 = 11;
