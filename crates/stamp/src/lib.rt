// Stamp: whole in one call, over an order of all literals.
#![tactic(auto)]

ghost use Rattle.std.specs.Prelude.{◌≡◌, false, List, map, length, ℕ, ◌*◌, ◌≤◌, ◌<◌, ℤ, MatchOption};
ghost use Rattle.literal.specs.Literals.{slot_of};
ghost use Rattle.implications.specs.Clauses.{implications};
ghost use Rattle.scc.specs.Groups.{cyclic};
ghost use Rattle.tables.specs.Lent.{lent, returned};
ghost use Rattle.tables.specs.Clauses.{slots_from};
ghost use Rattle.tables.specs.Calls.{after};
ghost use Rattle.visits.specs.Formed.{Formed};
ghost use Rattle.stamp_walk.specs.Stamping.{Proper};
ghost use Rattle.stamp.specs.Stamp.{first_bad, stamps_of, stamp_acyclic, stamp_call};
ghost use Rattle.stamp.specs.Asking.{ask_ordered, ask_of, Full, Records, written_tables, answer_of};

use state::{Answer, Outcome, Refusal, State};
use walk::SlotStamp;

// Refusal 8: the first entry of an order that is no literal of the variables 1 to v, or stands before.
fn check_order(order: &[i32], v: u32) -> Option<usize>
    requires { v ≤ 1024 }
    ensures { MatchOption result (first_bad v order.now ≡ length order.now) (λ i. (i ≡ first_bad v order.now) × (i < length order.now)) }
{
    let mut seen = [false; 2048];
    for (i, &l) in order.iter().enumerate() {
        if !literal::in_range(l, v) {
            return Some(i);
        }
        let s = literal::slot_of(l);
        if seen[s] {
            return Some(i);
        }
        seen[s] = true;
    }
    None
}

// Refusals 8 and 6, in this order: all that Run asks of a Stamp but for a cycle. The tables keep the shape rule: `entry::may_open` has checked it, and for a run the passes before keep it.
pub fn ask_ordered(
    clauses: &[u32],
    literals: &[i32],
    variables: &[i32],
    st: State,
    order: &[i32],
) -> Result<(), Refusal>
    requires { Formed st.v st.n st.n false clauses.now literals.now variables.now }
    ensures { (times : List ℕ) (links : List ℤ) →
        result ≡ ask_ordered order.now (lent clauses.now literals.now variables.now times links) st }
{
    if order.len() != 2 * st.v as usize {
        return Err(Refusal::Order(0));
    }
    if let Some(wrong) = check_order(order, st.v) {
        return Err(Refusal::Order(wrong));
    }
    let n = st.n as usize;
    if let Some(unsettled) = visits::first_unsettled(clauses, literals, variables, n) {
        return Err(Refusal::Unsettled(unsettled as u32 + 1));
    }
    Ok(())
}

// The topmost refusal but for a cycle, if one applies.
fn ask(
    clauses: &[u32],
    literals: &[i32],
    variables: &[i32],
    times: &[u32],
    links: &[i32],
    st: State,
    order: &[i32],
) -> Result<(), Refusal>
    ensures { result ≡ ask_of order.now (lent clauses.now literals.now variables.now times.now links.now) st }
{
    entry::may_open(clauses, literals, variables, times, links, st)?;
    ask_ordered(clauses, literals, variables, st, order)
}

// Walks the graph and, unless it is cyclic, writes the records; whether it is cyclic.
fn write_stamps(
    v: usize,
    n: usize,
    clauses: &[u32],
    literals: &[i32],
    order: &[i32],
    times: &mut [u32],
    links: &mut [i32],
) -> bool
    requires proper { Proper v n clauses.now literals.now × Full v order.now }
    requires records { Records v times.old links.old }
    ensures { (result ≡ cyclic (implications (slots_from clauses.now literals.now n 0)) (2 * v))
        × ((variables : List ℤ) → returned clauses.now literals.now variables times.new links.new
        ≡ written_tables result v (stamps_of (slots_from clauses.now literals.now n 0) (2 * v) (map slot_of order.now))
        (lent clauses.now literals.now variables times.old links.old)) }
{
    let size = 2 * v;
    let mut slots = [0u32; 2048];
    let slots = &mut slots[..size];
    stamp_walk::list_slots(order, slots);
    let mut stamps = [SlotStamp {
        discovery: 0,
        finish: 0,
        parent: 0,
        start: 0,
    }; 2048];
    let stamps = &mut stamps[..size];
    if stamp_walk::stamp_columns(v, n, clauses, literals, slots, stamps) {
        return true;
    }
    stamp_walk::copy_times(stamps, times);
    stamp_walk::copy_links(stamps, links);
    false
}

// Refusal 7, or the answer with fresh stamps.
fn answer(st: State, cyclic: bool) -> Outcome
    ensures { result ≡ answer_of cyclic st }
{
    if cyclic {
        return Outcome {
            answer: Err(Refusal::Cyclic),
            state: st,
        };
    }
    Outcome {
        answer: Ok(Answer::Stamped),
        state: st.closed(true),
    }
}

// The call past refusals 8 and 6, which Run uses: refusal 7, or the stamps. Nothing is written where the graph is cyclic. `ask_ordered` has found the order full and every clause settled; the records are there by the shape check.
pub fn stamp_acyclic(
    clauses: &[u32],
    literals: &[i32],
    times: &mut [u32],
    links: &mut [i32],
    st: State,
    order: &[i32],
) -> Outcome
    requires proper { Proper st.v st.n clauses.now literals.now × Full st.v order.now }
    requires records { Records st.v times.old links.old }
    ensures { (variables : List ℤ) → after result (returned clauses.now literals.now variables times.new links.new)
        ≡ stamp_acyclic order.now (lent clauses.now literals.now variables times.old links.old) st }
{
    let cyclic = write_stamps(
        st.v as usize,
        st.n as usize,
        clauses,
        literals,
        order,
        times,
        links,
    );
    answer(st, cyclic)
}

// The exported call.
pub fn stamp(
    clauses: &[u32],
    literals: &[i32],
    variables: &[i32],
    times: &mut [u32],
    links: &mut [i32],
    st: State,
    order: &[i32],
) -> Outcome
    ensures { after result (returned clauses.now literals.now variables.now times.new links.new)
        ≡ stamp_call order.now (lent clauses.now literals.now variables.now times.old links.old) st }
{
    match ask(clauses, literals, variables, times, links, st, order) {
        Err(refusal) => Outcome {
            answer: Err(refusal),
            state: st,
        },
        Ok(()) => stamp_acyclic(clauses, literals, times, links, st, order),
    }
}
