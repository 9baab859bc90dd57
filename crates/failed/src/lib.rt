// Failed: by fresh stamps, the literals that imply their own complement, whose complements become true.
#![tactic(auto)]

ghost use Rattle.std.specs.Prelude.{◌≡◌, false, List, ℕ, ◌+◌, ◌*◌, ◌≤◌, ◌<◌, ℤ};
ghost use Rattle.literal.specs.Literals.{twin};
ghost use Rattle.stamp_columns.specs.Columns.{columns};
ghost use Rattle.hidden.specs.Failed.{same_start, failed_slot};
ghost use Rattle.tables.specs.Lent.{lent, returned};
ghost use Rattle.tables.specs.Calls.{after};
ghost use Rattle.visits.specs.Formed.{Variables, Known};
ghost use Rattle.failed.specs.Failed.{found, assert, failed_at, failed_from, failed_fresh, failed_unless_stale, failed_call, state_after};
ghost use Rattle.failed.specs.Steps.{found_of, root, Rooted, FullStamps, Shared, Failable, Callable};

use state::{Answer, Outcome, Refusal, State};

// How many values were set, and whether the opposite value was met.
#[derive(Clone, Copy)]
pub struct Tally {
    pub set: u32,
    pub opposite: bool,
}

// The slot of the start of slot s.
fn start_of(links: &[i32], s: u32) -> u32
    requires { Rooted links.now s }
    ensures { result ≡ root links.now s }
{
    literal::slot_of(links[2 * s as usize + 1]) as u32
}

// Whether the literal of slot s and its complement have the same start.
fn same_start(links: &[i32], s: u32) -> bool
    requires { Rooted links.now s × Rooted links.now (twin s) }
    ensures { (times : List ℕ) → result ≡ same_start (columns times links.now) s }
{
    start_of(links, s) == start_of(links, literal::twin_of(s))
}

// The slot that has failed, where the literal of slot s and its complement have the same start: the first from s along the parents that holds the complement too.
// It ends: the start holds both, and discovery falls from each slot to its parent.
fn climb(times: &[u32], links: &[i32], s: u32) -> u32
    requires { Shared times.now links.now s }
    ensures { (v : ℕ) → FullStamps v times.now links.now → s < 2 * v → result ≡ failed_slot (columns times.now links.now) (2 * v) s }
{
    let t = literal::twin_of(s);
    let mut x = s;
    while !hidden::holds(times, x, t) {
        x = stamp_columns::parent(links, x);
    }
    x
}

// The literal l is to be true: it is already, or it is false, or its value is set now. Before this, n values were set.
fn assert_true(variables: &mut [i32], l: i32, n: u32) -> Tally
    requires { Known variables.old l × (n ≤ 1024) }
    ensures { found_of result variables.new ≡ assert l variables.old n }
{
    if visits::is_true(variables, l) {
        Tally {
            set: n,
            opposite: false,
        }
    } else if visits::is_false(variables, l) {
        Tally {
            set: n,
            opposite: true,
        }
    } else {
        visits::set_true(variables, l);
        Tally {
            set: n + 1,
            opposite: false,
        }
    }
}

// Variable w + 1, of slots 2w and 2w + 1: the complement of the literal that has failed, if one has, becomes true.
fn fail_variable(variables: &mut [i32], times: &[u32], links: &[i32], w: u32, n: u32) -> Tally
    requires { Failable variables.old times.now links.now w × (n ≤ 1024) }
    ensures { (v : ℕ) → FullStamps v times.now links.now → w < v
        → found_of result variables.new ≡ failed_at (columns times.now links.now) (2 * v) w variables.old n }
{
    let s = 2 * w;
    if !same_start(links, s) {
        return Tally {
            set: n,
            opposite: false,
        };
    }
    let failed = climb(times, links, s);
    let t = literal::twin_of(failed);
    let l = literal::lit_at(t as usize);
    assert_true(variables, l, n)
}

// The v variables in rising order; the opposite value ends it.
fn fail_from(variables: &mut [i32], times: &[u32], links: &[i32], v: u32) -> Tally
    requires { FullStamps v times.now links.now × Variables v variables.old }
    ensures { found_of result variables.new ≡ failed_from (columns times.now links.now) (2 * v) v 0 (found variables.old 0 false) }
{
    let mut set = 0;
    for w in 0..v {
        let t = fail_variable(variables, times, links, w, set);
        if t.opposite {
            return t;
        }
        set = t.set;
    }
    Tally {
        set,
        opposite: false,
    }
}

// No assignment is left where the opposite value was there: the mark, which spends the stamps.
fn state_after(st: State, opposite: bool) -> State
    ensures { result ≡ state_after opposite st }
{
    if opposite {
        st.marked()
    } else {
        st.closed(true)
    }
}

// The call on fresh stamps, for every content of the clause and literal tables, which it does not read. Values are set at class literals, and then every variable gets its own.
fn failed_fresh(variables: &mut [i32], times: &[u32], links: &[i32], st: State) -> Outcome
    requires { FullStamps st.v times.now links.now × Variables st.v variables.old }
    ensures { (clauses : List ℕ) (literals : List ℤ) → after result (returned clauses literals variables.new times.now links.now)
        ≡ failed_fresh (lent clauses literals variables.old times.now links.now) st }
{
    let v = st.v;
    let tally = fail_from(variables, times, links, v);
    spread::spread(variables, v);
    let state = state_after(st, tally.opposite);
    Outcome {
        answer: Ok(Answer::Failed(tally.set)),
        state,
    }
}

// Refusal 9 where the stamps are not fresh, and otherwise the call. Run enters here. Where stamps are fresh, the shape rule has them so: `entry::may_open` has checked it for the call, and for a run the passes before keep it.
pub fn unless_stale(variables: &mut [i32], times: &[u32], links: &[i32], st: State) -> Outcome
    requires { Callable st variables.old times.now links.now }
    ensures { (clauses : List ℕ) (literals : List ℤ) → after result (returned clauses literals variables.new times.now links.now)
        ≡ failed_unless_stale st.fresh (lent clauses literals variables.old times.now links.now) st }
{
    if st.fresh {
        failed_fresh(variables, times, links, st)
    } else {
        Outcome {
            answer: Err(Refusal::Stale),
            state: st,
        }
    }
}

// The exported call.
pub fn failed(
    clauses: &[u32],
    literals: &[i32],
    variables: &mut [i32],
    times: &[u32],
    links: &[i32],
    st: State,
) -> Outcome
    ensures { after result (returned clauses.now literals.now variables.new times.now links.now)
        ≡ failed_call (lent clauses.now literals.now variables.old times.now links.now) st }
{
    match entry::may_open(clauses, literals, variables, times, links, st) {
        Err(refusal) => Outcome {
            answer: Err(refusal),
            state: st,
        },
        Ok(()) => unless_stale(variables, times, links, st),
    }
}
