// Lists of calls as data, which demand 3 speaks of: definitions alone, in specs/.
#![tactic(auto)]

pub const CALL_LISTS: u8 = 0;
