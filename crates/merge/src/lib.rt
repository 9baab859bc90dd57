// Merge, resumable. Its opening makes the strongly connected components of the implication graph classes, unless one has a variable with both signs;
// its visits put class literals into the clauses.
#![tactic(auto)]

ghost use Rattle.std.specs.Prelude.{◌≡◌, false, List, ℕ, ◌*◌, length, ℤ};
ghost use Rattle.tables.specs.Lent.{lent, returned};
ghost use Rattle.tables.specs.Calls.{after};
ghost use Rattle.visits.specs.Formed.{Formed};
ghost use Rattle.implications.specs.Clauses.{implications};
ghost use Rattle.tables.specs.Clauses.{slots_from};
ghost use Rattle.merge.specs.Merge.{clashes, regrouped, merge_from, merge_open, merge_settled, merge_call};
ghost use Rattle.merge.specs.Opening.{opened_classes, through, Regroups};
ghost use Rattle.merge.specs.Steps.{Resumable, Openable};

use entry::{Entry, PassName};
use state::{Answer, Counts, Outcome, Pass, Refusal, State};

// ---- the opening

// Replaces the class of each of v variables by its representative: `rep` has for each slot the least slot of its component. So older classes pass through the new.
fn regroup(variables: &mut [i32], rep: &[u32], v: usize)
    requires { Regroups v rep.now variables.old }
    ensures { variables.new ≡ regrouped (through rep.now) v variables.old }
{
    for w in 0..v {
        let at = 2 * w;
        let slot = literal::slot_of(variables[at]);
        let least = rep[slot] as usize;
        variables[at] = literal::lit_at(least);
    }
}

// The opening on a lent place for the representatives; what they are then does not matter.
fn regroup_by(
    v: usize,
    n: usize,
    clauses: &[u32],
    literals: &[i32],
    variables: &mut [i32],
    rep: &mut [u32],
) -> bool
    requires formed { Formed v n n false clauses.now literals.now variables.old }
    requires rep_len { length rep.old ≡ 2 * v }
    ensures { (result ≡ clashes (implications (slots_from clauses.now literals.now n 0)) v)
        × (variables.new ≡ opened_classes result (implications (slots_from clauses.now literals.now n 0)) v variables.old) }
{
    table_graph::representatives(v, n, clauses, literals, rep);
    if scc::has_clash(rep) {
        return true;
    }
    regroup(variables, rep, v);
    false
}

// Whether some v and −v share a component; if none do, the classes of the variables become the components' smallest variables.
fn merge_classes(v: u32, n: u32, clauses: &[u32], literals: &[i32], variables: &mut [i32]) -> bool
    requires { Formed v n n false clauses.now literals.now variables.old }
    ensures { (result ≡ clashes (implications (slots_from clauses.now literals.now n 0)) v)
        × (variables.new ≡ opened_classes result (implications (slots_from clauses.now literals.now n 0)) v variables.old) }
{
    let slots = 2 * v as usize;
    let mut rep = [0u32; 2048];
    regroup_by(
        v as usize,
        n as usize,
        clauses,
        literals,
        variables,
        &mut rep[..slots],
    )
}

// ---- the call

// The visits of a call that stands before clause `cursor`, and its answer.
fn merge_from(
    clauses: &mut [u32],
    literals: &mut [i32],
    variables: &[i32],
    st: State,
    fresh: bool,
    steps: u32,
    cursor: u32,
) -> Outcome
    requires { Resumable st cursor clauses.old literals.old variables.now }
    ensures { (times : List ℕ) (links : List ℤ) → after result (returned clauses.new literals.new variables.now times links)
        ≡ merge_from fresh steps cursor (lent clauses.old literals.old variables.now times links) st }
{
    let n = st.n;
    let visits = steps.min(n - cursor);
    let end = cursor + visits;
    let before = visits::count_standing(clauses, n as usize);
    merge_visits::visit_some(clauses, literals, variables, cursor, end);
    let left = visits::count_standing(clauses, n as usize);
    let counts = visits::counts_of(visits, before, left);
    visits::answer_at(st, Pass::Merge(end), fresh, fresh, counts, end)
}

// Opens the pass: the mark where v and −v share a component, else the new classes and the visits from the first clause on. Opening spends the stamps. Refusal 6 has been asked, or Settle has just propagated; the shape rule holds since the call's entry.
pub fn merge_open(
    clauses: &mut [u32],
    literals: &mut [i32],
    variables: &mut [i32],
    st: State,
    steps: u32,
) -> Outcome
    requires { Openable st clauses.old literals.old variables.old }
    ensures { (times : List ℕ) (links : List ℤ) → after result (returned clauses.new literals.new variables.new times links)
        ≡ merge_open steps (lent clauses.old literals.old variables.old times links) st }
{
    let v = st.v;
    let n = st.n;
    if merge_classes(v, n, clauses, literals, variables) {
        let none = Counts {
            visits: 0,
            clauses: 0,
            literals: 0,
        };
        return Outcome {
            answer: Ok(Answer::Done(none)),
            state: st.marked(),
        };
    }
    merge_from(clauses, literals, variables, st, false, steps, 0)
}

// Opens the pass unless refusal 6 names a clause, by its number, which counts from 1.
fn merge_settled(
    clauses: &mut [u32],
    literals: &mut [i32],
    variables: &mut [i32],
    st: State,
    steps: u32,
) -> Outcome
    requires { Formed st.v st.n st.n false clauses.old literals.old variables.old }
    ensures { (times : List ℕ) (links : List ℤ) → after result (returned clauses.new literals.new variables.new times links)
        ≡ merge_settled steps (lent clauses.old literals.old variables.old times links) st }
{
    let n = st.n as usize;
    if let Some(first) = visits::first_unsettled(clauses, literals, variables, n) {
        return Outcome {
            answer: Err(Refusal::Unsettled(first as u32 + 1)),
            state: st,
        };
    }
    merge_open(clauses, literals, variables, st, steps)
}

// The exported call.
pub fn merge(
    clauses: &mut [u32],
    literals: &mut [i32],
    variables: &mut [i32],
    times: &[u32],
    links: &[i32],
    st: State,
    n: u16,
) -> Outcome
    ensures { after result (returned clauses.new literals.new variables.new times.now links.now)
        ≡ merge_call n (lent clauses.old literals.old variables.old times.now links.now) st }
{
    let own = PassName::Merge;
    match entry::entry_of(clauses, literals, variables, times, links, st, own) {
        Err(refusal) => Outcome {
            answer: Err(refusal),
            state: st,
        },
        Ok(Entry::Opens) => merge_settled(clauses, literals, variables, st, n as u32),
        Ok(Entry::Resumes(k, _)) => {
            let fresh = st.fresh;
            merge_from(clauses, literals, variables, st, fresh, n as u32, k)
        }
    }
}
