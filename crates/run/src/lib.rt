// Run: rounds of the passes that the state's programme names.
#![tactic(auto)]

ghost use Rattle.std.specs.Prelude.{◌≡◌, true, ◌||◌, List, ℕ, ◌+◌, ◌*◌, ◌≤◌, ◌<◌, length, ℤ, is_some};
ghost use Rattle.std.specs.ControlFlow.{break_value};
ghost use Rattle.base.specs.Lists.{all_below, same_list};
ghost use Rattle.literal.specs.Literals.{eq_z};
ghost use Rattle.state.specs.Programmes.{codes_of};
ghost use Rattle.state.specs.declared.State.{State};
ghost use Rattle.tables.specs.Lent.{handed, lent, returned};
ghost use Rattle.tables.specs.Clauses.{literals_of};
ghost use Rattle.tables.specs.Calls.{after};
ghost use Rattle.stamp.specs.Stamp.{stamp_ordered};
ghost use Rattle.failed.specs.Failed as failing;
ghost use Rattle.failed.specs.Steps.{Callable};
ghost use Rattle.sweep.specs.Sweep as sweeping;
ghost use Rattle.sweep_visits.specs.Visits.{Sweepable};
ghost use Rattle.settle.specs.Settle.{between};
ghost use Rattle.round_order.specs.Order.{order_of};
ghost use Rattle.run.specs.Run.{follow, round, unchanged, rounds, run_from, run_reply, run_call};
ghost use Rattle.settle.specs.Steps.{standing_in};
ghost use Rattle.run.specs.Steps.{Runs, PartsInside, Saves, Saved, Comparable, state_left};

use state::{Answer, FAILED, Outcome, Programme, SETTLE, STAMP, SWEEP, State};
use std::ops::ControlFlow;

// The rounds made, and the state after them.
#[derive(Clone, Copy)]
pub struct Made {
    pub made: u32,
    pub state: State,
}

// ---- what stood before a round

// Whether each of n clauses has the same literals in two literal tables.
fn same_parts(clauses: &[u32], old: &[i32], new: &[i32], n: usize) -> bool
    requires { PartsInside n clauses.now old.now new.now }
    ensures { result ≡ all_below n (λ i. same_list eq_z (literals_of clauses.now old.now i) (literals_of clauses.now new.now i)) }
{
    for i in 0..n {
        let start = clauses[3 * i] as usize;
        let end = start + clauses[3 * i + 1] as usize;
        if old[start..end] != new[start..end] {
            return false;
        }
    }
    true
}

// The clauses, the literals and the variables as they stood before a round, as many as the tables state. The value is large: the
// rounds of a run share one, and the type is not `Copy`.
#[derive(Drop)]
struct Copies {
    clauses: [u32; 12288],
    literals: [i32; 16384],
    variables: [i32; 2048],
}

impl Copies {
    // Copies the tables as they stand.
    fn save(&mut self, clauses: &[u32], literals: &[i32], variables: &[i32])
        requires { Saves clauses.now literals.now variables.now }
        ensures { Saved clauses.now literals.now variables.now self.new.clauses self.new.literals self.new.variables }
    {
        self.clauses.copy_from_slice(&clauses[..12288]);
        self.literals.copy_from_slice(&literals[..16384]);
        self.variables.copy_from_slice(&variables[..2048]);
    }

    // Whether no clause, class or value differs from the copies. Clauses whose records are the same have the same parts.
    fn is_same(&self, v: u32, n: u32, clauses: &[u32], literals: &[i32], variables: &[i32]) -> bool
        requires { Comparable v n self.now.clauses self.now.literals clauses.now literals.now variables.now }
        ensures { (st st' : State) (times times' : List ℕ) (links links' : List ℤ) → st.v ≡ v → st.n ≡ n →
            result ≡ unchanged (standing_in (lent self.now.clauses self.now.literals self.now.variables times links) st)
            (standing_in (lent clauses.now literals.now variables.now times' links') st') }
    {
        let records = 3 * n as usize;
        let places = 2 * v as usize;
        self.clauses[..records] == clauses[..records]
            && same_parts(&self.clauses, &self.literals, literals, n as usize)
            && self.variables[..places] == variables[..places]
    }
}

// ---- the codes

// Stamp in a given order. Where Stamp would refuse, nothing changes.
fn stamp_ordered(
    clauses: &[u32],
    literals: &[i32],
    variables: &[i32],
    times: &mut [u32],
    links: &mut [i32],
    st: State,
    order: &[i32],
) -> State
    requires { Runs (standing_in (handed clauses.now literals.now variables.now times.old links.old) st) }
    ensures { standing_in (returned clauses.now literals.now variables.now times.new links.new) result
        ≡ between (stamp_ordered order.now (lent clauses.now literals.now variables.now times.old links.old) st) }
{
    match stamp::ask_ordered(clauses, literals, variables, st, order) {
        Err(_) => st,
        Ok(()) => stamp::stamp_acyclic(clauses, literals, times, links, st, order).state,
    }
}

// Stamp in the order of round k, for which a place is lent.
fn stamp_turned(
    k: u32,
    clauses: &[u32],
    literals: &[i32],
    variables: &[i32],
    times: &mut [u32],
    links: &mut [i32],
    st: State,
    place: &mut [i32],
) -> State
    requires { Runs (standing_in (handed clauses.now literals.now variables.now times.old links.old) st) × (length place.old ≡ 2048) }
    ensures { standing_in (returned clauses.now literals.now variables.now times.new links.new) result
        ≡ between (stamp_ordered (order_of st.v k) (lent clauses.now literals.now variables.now times.old links.old) st) }
{
    let v = st.v;
    let size = 2 * v as usize;
    round_order::write_order(&mut place[..size], v, k);
    stamp_ordered(
        clauses,
        literals,
        variables,
        times,
        links,
        st,
        &place[..size],
    )
}

// STAMP.
fn follow_stamp(
    k: u32,
    clauses: &[u32],
    literals: &[i32],
    variables: &[i32],
    times: &mut [u32],
    links: &mut [i32],
    st: State,
) -> State
    requires { Runs (standing_in (handed clauses.now literals.now variables.now times.old links.old) st) }
    ensures { standing_in (returned clauses.now literals.now variables.now times.new links.new) result
        ≡ between (stamp_ordered (order_of st.v k) (lent clauses.now literals.now variables.now times.old links.old) st) }
{
    let mut place = [0i32; 2048];
    stamp_turned(
        k, clauses, literals, variables, times, links, st, &mut place,
    )
}

// FAILED.
fn follow_failed(variables: &mut [i32], times: &[u32], links: &[i32], st: State) -> State
    requires { Callable st variables.old times.now links.now }
    ensures { (clauses : List ℕ) (literals : List ℤ) → standing_in (returned clauses literals variables.new times.now links.now) result
        ≡ between (failing.failed_unless_stale st.fresh (lent clauses literals variables.old times.now links.now) st) }
{
    let outcome = failed::unless_stale(variables, times, links, st);
    outcome.state
}

// SWEEP: a whole one.
fn follow_sweep(
    clauses: &mut [u32],
    literals: &mut [i32],
    times: &[u32],
    links: &[i32],
    st: State,
) -> State
    requires { st.fresh ≡ true → Sweepable st.n clauses.old literals.old times.now links.now }
    ensures { (variables : List ℤ) → standing_in (returned clauses.new literals.new variables times.now links.now) result
        ≡ between (sweeping.sweep_unless_stale st.fresh st.n 0 (lent clauses.old literals.old variables times.now links.now) st) }
{
    let n = st.n;
    let outcome = sweep::sweep_entered(clauses, literals, times, links, st, 0, n);
    outcome.state
}

// What a code does in round k.
fn follow(
    code: u32,
    k: u32,
    clauses: &mut [u32],
    literals: &mut [i32],
    variables: &mut [i32],
    times: &mut [u32],
    links: &mut [i32],
    st: State,
) -> State
    requires { Runs (standing_in (handed clauses.old literals.old variables.old times.old links.old) st) }
    ensures { standing_in (returned clauses.new literals.new variables.new times.new links.new) result ≡ follow k code (standing_in (lent clauses.old literals.old variables.old times.old links.old) st) }
{
    match code {
        SETTLE => settle::settle(clauses, literals, variables, st),
        STAMP => follow_stamp(k, clauses, literals, variables, times, links, st),
        FAILED => follow_failed(variables, times, links, st),
        SWEEP => follow_sweep(clauses, literals, times, links, st),
        _ => st,
    }
}

// ---- rounds

// Round k: the codes of a programme in order, up to the mark.
fn round(
    k: u32,
    clauses: &mut [u32],
    literals: &mut [i32],
    variables: &mut [i32],
    times: &mut [u32],
    links: &mut [i32],
    st: State,
    programme: Programme,
) -> State
    requires { Runs (standing_in (handed clauses.old literals.old variables.old times.old links.old) st) × (programme.length ≤ 32) }
    ensures { standing_in (returned clauses.new literals.new variables.new times.new links.new) result ≡ round k (codes_of programme) (standing_in (lent clauses.old literals.old variables.old times.old links.old) st) }
{
    let count = programme.length as usize;
    let mut state = st;
    for code in &programme.codes[..count] {
        state = follow(*code, k, clauses, literals, variables, times, links, state);
        if state.mark {
            return state;
        }
    }
    state
}

// Round k with copies of what stood before it: the run stops after it at the mark, or where nothing has changed. Breaks with the state that the round leaves if the run stops, and continues with it if not.
fn make_round(
    k: u32,
    clauses: &mut [u32],
    literals: &mut [i32],
    variables: &mut [i32],
    times: &mut [u32],
    links: &mut [i32],
    st: State,
    programme: Programme,
    copies: &mut Copies,
) -> ControlFlow<State, State>
    requires { Runs (standing_in (handed clauses.old literals.old variables.old times.old links.old) st) × (programme.length ≤ 32) }
    ensures { (standing_in (returned clauses.new literals.new variables.new times.new links.new) (state_left result) ≡ round k (codes_of programme) (standing_in (lent clauses.old literals.old variables.old times.old links.old) st))
        × (is_some (break_value result) ≡ ((state_left result).mark || unchanged (standing_in (lent clauses.old literals.old variables.old times.old links.old) st) (standing_in (returned clauses.new literals.new variables.new times.new links.new) (state_left result)))) }
{
    copies.save(clauses, literals, variables);
    let v = st.v;
    let n = st.n;
    let after = round(k, clauses, literals, variables, times, links, st, programme);
    let same = copies.is_same(v, n, clauses, literals, variables);
    if after.mark || same {
        ControlFlow::Break(after)
    } else {
        ControlFlow::Continue(after)
    }
}

// At most so many rounds, from round 0 on.
fn make_rounds(
    count: u32,
    clauses: &mut [u32],
    literals: &mut [i32],
    variables: &mut [i32],
    times: &mut [u32],
    links: &mut [i32],
    st: State,
    programme: Programme,
    copies: &mut Copies,
) -> Made
    requires { Runs (standing_in (handed clauses.old literals.old variables.old times.old links.old) st) × (programme.length ≤ 32) }
    ensures { rounds result.made (standing_in (returned clauses.new literals.new variables.new times.new links.new) result.state) ≡ run_from (codes_of programme) count 0 (standing_in (lent clauses.old literals.old variables.old times.old links.old) st) }
{
    let mut state = st;
    for k in 0..count {
        match make_round(
            k, clauses, literals, variables, times, links, state, programme, copies,
        ) {
            ControlFlow::Continue(next) => state = next,
            ControlFlow::Break(last) => return Made {
                made: k + 1,
                state: last,
            },
        }
    }
    Made { made: count, state }
}

// The same with copies of its own.
fn run_rounds(
    count: u32,
    clauses: &mut [u32],
    literals: &mut [i32],
    variables: &mut [i32],
    times: &mut [u32],
    links: &mut [i32],
    st: State,
    programme: Programme,
) -> Made
    requires { Runs (standing_in (handed clauses.old literals.old variables.old times.old links.old) st) × (programme.length ≤ 32) }
    ensures { rounds result.made (standing_in (returned clauses.new literals.new variables.new times.new links.new) result.state) ≡ run_from (codes_of programme) count 0 (standing_in (lent clauses.old literals.old variables.old times.old links.old) st) }
{
    let mut copies = Copies {
        clauses: [0; 12288],
        literals: [0; 16384],
        variables: [0; 2048],
    };
    make_rounds(
        count,
        clauses,
        literals,
        variables,
        times,
        links,
        st,
        programme,
        &mut copies,
    )
}

// ---- the call

// A call that no refusal stops. No pass changes the programme, so that every round follows the one that the state has now.
fn run_entered(
    count: u32,
    clauses: &mut [u32],
    literals: &mut [i32],
    variables: &mut [i32],
    times: &mut [u32],
    links: &mut [i32],
    st: State,
) -> Outcome
    requires { Runs (standing_in (handed clauses.old literals.old variables.old times.old links.old) st) }
    ensures { after result (returned clauses.new literals.new variables.new times.new links.new) ≡ run_reply (run_from (codes_of st.programme) count 0 (standing_in (lent clauses.old literals.old variables.old times.old links.old) st)) }
{
    let programme = st.programme;
    let made = run_rounds(
        count, clauses, literals, variables, times, links, st, programme,
    );
    let number = made.made;
    let state = made.state;
    Outcome {
        answer: Ok(Answer::Ran(number)),
        state,
    }
}

// The exported call.
pub fn run(
    clauses: &mut [u32],
    literals: &mut [i32],
    variables: &mut [i32],
    times: &mut [u32],
    links: &mut [i32],
    st: State,
    n: u16,
) -> Outcome
    ensures { after result (returned clauses.new literals.new variables.new times.new links.new) ≡ run_call n (lent clauses.old literals.old variables.old times.old links.old) st }
{
    match entry::may_open(clauses, literals, variables, times, links, st) {
        Err(refusal) => Outcome {
            answer: Err(refusal),
            state: st,
        },
        Ok(()) => run_entered(n as u32, clauses, literals, variables, times, links, st),
    }
}
