// Where each variable occurs, and which clauses are pending: still to be visited. The places of a variable are a chain, from its last place to its first; pending clauses are searched by blocks of 64.
#![tactic(auto)]

ghost use Rattle.std.specs.Prelude.{◌≡◌, true, false, ◌+◌, ◌*◌, ◌/◌, ◌≤◌, ◌<◌, length, get_or, set, replicate};
ghost use Rattle.occurrences.specs.Chains.{Linkable, Linking, ChainRoom};
ghost use Rattle.occurrences.specs.Pending.{Covered, Skippable, HasChain, PendingAll};

// The chains of the places of each variable. `heads` has the last place of each variable, counted from 1, and 0 where there is none; `places` has a record of two numbers for each place, the place before it in its chain and its clause. `propagate::visit_listed` makes them empty, all 0.
#[derive(Drop)]
pub struct Chains {
    pub heads: [u32; 1025],
    pub places: [u32; 32768],
}

impl Chains {
    // Puts place p of clause i at the front of the chain of variable w.
    fn link_place(&mut self, w: usize, p: usize, i: u32)
        requires { (w < 1025) × (p < 16384) }
        ensures { (self.new.heads ≡ set self.old.heads w (p + 1))
            × (self.new.places ≡ set (set self.old.places (2 * p) (get_or self.old.heads w 0)) (2 * p + 1) i) }
    {
        self.places[2 * p] = self.heads[w];
        self.places[2 * p + 1] = i;
        self.heads[w] = (p + 1) as u32;
    }

    // Links the places of clause i.
    fn link_clause(&mut self, clauses: &[u32], literals: &[i32], i: u32)
        requires linkable { Linkable (i + 1) clauses.now literals.now }
        requires linking { Linking i 0 clauses.now literals.now self.old.heads self.old.places }
        ensures chain_room { ChainRoom self.new.heads self.new.places }
        ensures linking_2 { Linking (i + 1) 0 clauses.now literals.now self.new.heads self.new.places }
    {
        let at = 3 * i as usize;
        let start = clauses[at] as usize;
        let end = start + clauses[at + 1] as usize;
        for p in start..end {
            let w = literal::var_of(literals[p]);
            self.link_place(w, p, i);
        }
    }

    // Links the places of n clauses. All chains are empty before. The clauses lie in the tables by the shape rule.
    pub fn link(&mut self, clauses: &[u32], literals: &[i32], n: u32)
        requires linkable { Linkable n clauses.now literals.now }
        requires linking { Linking 0 0 clauses.now literals.now self.old.heads self.old.places }
        ensures chain_room { ChainRoom self.new.heads self.new.places }
        ensures linking_2 { Linking n 0 clauses.now literals.now self.new.heads self.new.places }
    {
        for i in 0..n {
            self.link_clause(clauses, literals, i);
        }
    }
}

// Which of the 4,096 clauses are pending. The entry of a block of 64 clauses is false only where none of them is pending.
#[derive(Drop)]
pub struct PendingClauses {
    pub flags: [bool; 4096],
    pub blocks: [bool; 64],
}

impl PendingClauses {
    // Every clause is pending.
    pub fn all() -> PendingClauses
        ensures { (result.flags ≡ replicate 4096 true) × (result.blocks ≡ replicate 64 true) }
    {
        PendingClauses {
            flags: [true; 4096],
            blocks: [true; 64],
        }
    }

    // The clauses in which variable w occurs become pending. `Chains::link` has made its chain.
    pub fn set_pending(&mut self, chains: &Chains, w: usize)
        requires { HasChain w chains.now.heads chains.now.places self.old.flags self.old.blocks }
        ensures pending_all { PendingAll w chains.now.heads chains.now.places self.old.flags self.new.flags self.new.blocks }
        ensures room { (4096 ≤ length self.new.flags) × (64 ≤ length self.new.blocks) }
    {
        let mut p = chains.heads[w] as usize;
        while 0 < p {
            let q = p - 1;
            let i = chains.places[2 * q + 1] as usize;
            p = chains.places[2 * q] as usize;
            self.flags[i] = true;
            self.blocks[i / 64] = true;
        }
    }

    // Clause i is no longer pending.
    pub fn clear(&mut self, i: usize)
        requires { i < 4096 }
        ensures { (self.new.flags ≡ set self.old.flags i false) × (self.new.blocks ≡ self.old.blocks) }
    {
        self.flags[i] = false;
    }

    // The first pending clause from `from` on and before `to`; `to` if there is none.
    fn first_between(&self, from: usize, to: usize) -> usize
        requires { (from ≤ to) × (to ≤ 4096) }
        ensures { (from ≤ result) × ((result ≤ to) × Skippable self.now.flags from result) }
    {
        for i in from..to {
            if self.flags[i] {
                return i;
            }
        }
        to
    }

    // The first pending clause from j on in the block of j, or the block's end. A block that has none is left out from then on.
    fn first_in_block(&mut self, j: usize) -> usize
        requires j_bound { j < 4096 }
        requires covered { Covered self.old.flags self.old.blocks }
        ensures lower_bound { (j ≤ result) × ((result ≤ 64 * (j / 64) + 64) × Skippable self.old.flags j result) }
        ensures same_flags { self.new.flags ≡ self.old.flags }
        ensures room { 64 ≤ length self.new.blocks }
        ensures covered_2 { Covered self.old.flags self.new.blocks }
    {
        let b = j / 64;
        let end = 64 * b + 64;
        if !self.blocks[b] {
            return end;
        }
        let found = self.first_between(j, end);
        if found == end && j == 64 * b {
            self.blocks[b] = false;
        }
        found
    }

    // The first pending clause from k on; 4,096 if there is none.
    pub fn next(&mut self, k: usize) -> usize
        requires k_bound { k ≤ 4096 }
        requires covered { Covered self.old.flags self.old.blocks }
        ensures lower_bound { (k ≤ result) × ((result ≤ 4096) × Skippable self.old.flags k result) }
        ensures same_flags { self.new.flags ≡ self.old.flags }
        ensures room { 64 ≤ length self.new.blocks }
        ensures covered_2 { Covered self.old.flags self.new.blocks }
    {
        for b in k / 64..64 {
            let found = self.first_in_block(k.max(64 * b));
            if found < 64 * b + 64 {
                return found;
            }
        }
        4096
    }
}
