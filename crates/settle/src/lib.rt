// Settle: whole Propagate and Merge passes until a Merge finds only groups of one.
#![tactic(auto)]

ghost use Rattle.std.specs.Prelude.{◌≡◌, false, List, ℕ, ℤ};
ghost use Rattle.tables.specs.Lent.{lent, returned};
ghost use Rattle.visits.specs.Formed.{Variables, Formed};
ghost use Rattle.merge.specs.Steps.{Openable};
ghost use Rattle.settle.specs.Settle.{propagated, merged, settle};
ghost use Rattle.settle.specs.Own.{owns};
ghost use Rattle.settle.specs.Steps.{standing_in, passed_by, both_passes};

use state::State;
use std::ops::ControlFlow;

// How many of the variables 1 to v are their own class. A class is a literal, and it is the variable itself exactly if its slot is the first of the variable's two.
fn count_own(variables: &[i32], v: u32) -> u32
    requires { Variables v variables.now }
    ensures { result ≡ owns v variables.now }
{
    let mut count: u32 = 0;
    for w in 0..v {
        let at = 2 * w as usize;
        let slot = literal::slot_of(variables[at]);
        if slot == at {
            count += 1;
        }
    }
    count
}

// A whole Propagate. Each time through the clauses but the last takes a literal away, so these steps are enough.
fn propagate_whole(
    clauses: &mut [u32],
    literals: &mut [i32],
    variables: &mut [i32],
    st: State,
) -> State
    requires { Formed st.v st.n st.n false clauses.old literals.old variables.old }
    ensures { (times : List ℕ) (links : List ℤ) → standing_in (returned clauses.new literals.new variables.new times links) result
        ≡ propagated (standing_in (lent clauses.old literals.old variables.old times links) st) }
{
    let n = st.n;
    let totals = visits::count_standing(clauses, n as usize);
    let steps = (totals.literals + 2) * n;
    let outcome = propagate::open_pass(clauses, literals, variables, st, steps);
    outcome.state
}

// A whole Merge: a visit to each clause.
fn merge_whole(clauses: &mut [u32], literals: &mut [i32], variables: &mut [i32], st: State) -> State
    requires { Openable st clauses.old literals.old variables.old }
    ensures { (times : List ℕ) (links : List ℤ) → standing_in (returned clauses.new literals.new variables.new times links) result
        ≡ merged (standing_in (lent clauses.old literals.old variables.old times links) st) }
{
    let n = st.n;
    let outcome = merge::merge_open(clauses, literals, variables, st, n);
    outcome.state
}

// A Propagate and, unless it sets the mark, a Merge, which has found a group exactly if fewer variables are their own class after it. Continues with the state after them if they are to be repeated, and breaks with it if not.
fn settle_once(
    clauses: &mut [u32],
    literals: &mut [i32],
    variables: &mut [i32],
    st: State,
) -> ControlFlow<State, State>
    requires { Formed st.v st.n st.n false clauses.old literals.old variables.old }
    ensures { (times : List ℕ) (links : List ℤ) → passed_by (returned clauses.new literals.new variables.new times links) result
        ≡ both_passes (standing_in (lent clauses.old literals.old variables.old times links) st) }
{
    let v = st.v;
    let propagated = propagate_whole(clauses, literals, variables, st);
    if propagated.mark {
        return ControlFlow::Break(propagated);
    }
    let before = count_own(variables, v);
    let merged = merge_whole(clauses, literals, variables, propagated);
    if merged.mark {
        return ControlFlow::Break(merged);
    }
    let after = count_own(variables, v);
    if after < before {
        ControlFlow::Continue(merged)
    } else {
        ControlFlow::Break(merged)
    }
}

// The whole of Settle, on tables without the mark in which no pass is open. They keep the shape rule: `entry::may_open` has checked it, and for later rounds the passes before keep it.
pub fn settle(clauses: &mut [u32], literals: &mut [i32], variables: &mut [i32], st: State) -> State
    requires { Formed st.v st.n st.n false clauses.old literals.old variables.old }
    ensures { (times : List ℕ) (links : List ℤ) → standing_in (returned clauses.new literals.new variables.new times links) result
        ≡ settle (standing_in (lent clauses.old literals.old variables.old times links) st) }
{
    let mut state = st;
    loop {
        match settle_once(clauses, literals, variables, state) {
            ControlFlow::Continue(next) => state = next,
            ControlFlow::Break(last) => return last,
        }
    }
}
