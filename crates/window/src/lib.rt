// The window of learnt clauses (document 02, CR 1): its rule checked in linear time, a clause kept, and the eldest leaving.
#![tactic(auto)]

ghost use Rattle.std.specs.Prelude.{◌≡◌, List, ℕ, ◌+◌, ◌*◌, ◌≤◌, ◌<◌, length, replicate, set, ℤ};
ghost use Rattle.std.proofs.lemmas.List.Edits.{sets};
ghost use Rattle.base.specs.Decide.{Decides};
ghost use Rattle.shape.specs.Row.{Below};
ghost use Rattle.window.specs.declared.Window.{Window};
ghost use Rattle.window.specs.Window.{places, window_of, record_of, moved_down, eldest_left, keep};
ghost use Rattle.window.specs.Rule.{Learnable, Newcomer, LongWindow, WindowRule, Clauses, Full, Room, Ruled};

use state::Outcome;

// What goes with the two tables that are lent: the number of clauses in the window, and their literals together.
#[derive(Clone, Copy)]
pub struct Window {
    pub clauses: u32,
    pub literals: u32,
}

// What a call that takes the window gives back.
#[derive(Clone, Copy)]
pub struct Windowed {
    pub outcome: Outcome,
    pub window: Window,
}

impl Window {
    // What a load leaves.
    pub fn empty() -> Window
        ensures { result ≡ window_of 0 0 }
    {
        Window {
            clauses: 0,
            literals: 0,
        }
    }
}

// ---- the rule

// Neither table is shorter than stated.
pub fn long_ok(sizes: &[u32], learnt: &[i32]) -> bool
    ensures { (window : Window) → Decides result (LongWindow (places sizes.now learnt.now window)) }
{
    sizes.len() >= 64 && learnt.len() >= 4096
}

// A clause that 11 does not forbid, the `len` literals from `start` on, by the check that the shape rule has for the literals of a clause
// which need not be settled. `last` is what that check works in.
fn clause_ok(
    literals: &[i32],
    variables: &[i32],
    start: usize,
    len: usize,
    v: u32,
    number: u32,
    last: &mut [u32],
) -> bool
    requires { (len ≤ 64 → start + len ≤ length literals.now) × (v ≤ 1024) × (2 * v ≤ length variables.now) × (length last.old ≡ 1024) × Below number last.old }
    ensures { Decides result (Learnable v literals.now start len) × Below (number + 1) last.new }
{
    len <= 64 && shape::literals_ok(literals, variables, start, len, v, false, number, last)
}

// A newcomer that 11 does not forbid. The variable records are not looked at; that there are V of them, the shape rule has checked.
pub fn newcomer_ok(newcomer: &[i32], variables: &[i32], v: u32) -> bool
    requires { (v ≤ 1024) × (2 * v ≤ length variables.now) }
    ensures { Decides result (Newcomer v newcomer.now) }
{
    let mut last = [0u32; 1024];
    clause_ok(newcomer, variables, 0, newcomer.len(), v, 1, &mut last)
}

// The first n clauses and their literal total, with an empty table of where each variable stood last.
fn clauses_ok(
    sizes: &[u32],
    learnt: &[i32],
    window: Window,
    variables: &[i32],
    v: u32,
    last: &mut [u32],
) -> bool
    requires { LongWindow (places sizes.now learnt.now window) × (window.clauses ≤ 64) × (v ≤ 1024) × (2 * v ≤ length variables.now) × (last.old ≡ replicate 1024 0) }
    ensures { Decides result (Clauses v (places sizes.now learnt.now window)) }
{
    let n = window.clauses as usize;
    let mut total: u32 = 0;
    for (k, size) in sizes[..n].iter().enumerate() {
        let len = *size as usize;
        let number = k as u32 + 1;
        if !clause_ok(learnt, variables, 64 * k, len, v, number, last) {
            return false;
        }
        total += *size;
    }
    total == window.literals
}

// Whether a window keeps the rule, whatever is lent. The state's V is at most 1,024, as the shape rule has it.
pub fn window_ok(sizes: &[u32], learnt: &[i32], window: Window, variables: &[i32], v: u32) -> bool
    requires { (v ≤ 1024) × (2 * v ≤ length variables.now) }
    ensures { Decides result (WindowRule v (places sizes.now learnt.now window)) }
{
    if !long_ok(sizes, learnt) || window.clauses > 64 {
        return false;
    }
    let mut last = [0u32; 1024];
    clauses_ok(sizes, learnt, window, variables, v, &mut last)
}

// ---- a clause kept

// The eldest leaves a window that has one, and its literals leave the total: the sizes behind the first move down by one place, and the
// records behind the first by one record.
fn leave(sizes: &mut [u32], learnt: &mut [i32], window: Window) -> Window
    requires { Full (places sizes.old learnt.old window) }
    ensures { places sizes.new learnt.new result ≡ eldest_left (places sizes.old learnt.old window) }
{
    let gone = sizes[0];
    sizes.copy_within(1..64, 0);
    learnt.copy_within(64..4096, 0);
    Window {
        clauses: window.clauses - 1,
        literals: window.literals - gone,
    }
}

// The 64 places of a record, `row`, go behind the others of a window that has room.
fn put(sizes: &mut [u32], learnt: &mut [i32], window: Window, row: &[i32], size: u32) -> Window
    requires { Room (places sizes.old learnt.old window) × (length row.now ≡ 64) × (size ≤ 64) }
    ensures { places sizes.new learnt.new result
        ≡ places (set sizes.old window.clauses size) (sets learnt.old (64 * window.clauses) row.now) (window_of (window.clauses + 1) (window.literals + size)) }
{
    let k = window.clauses as usize;
    let start = 64 * k;
    sizes[k] = size;
    learnt[start..start + 64].copy_from_slice(row);
    Window {
        clauses: window.clauses + 1,
        literals: window.literals + size,
    }
}

// Keeps a clause, which comes as the 64 places of its record and its size, in a window that keeps the rule.
pub fn keep(sizes: &mut [u32], learnt: &mut [i32], window: Window, row: &[i32], size: u32) -> Window
    requires { Ruled (places sizes.old learnt.old window) × (length row.now ≡ 64) × (size ≤ 64) }
    ensures { (C : List ℤ) → row.now ≡ record_of C → size ≡ length C
        → places sizes.new learnt.new result ≡ keep C (places sizes.old learnt.old window) }
{
    if window.clauses == 64 {
        let left = leave(sizes, learnt, window);
        return put(sizes, learnt, left, row, size);
    }
    put(sizes, learnt, window, row, size)
}
