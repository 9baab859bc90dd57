// Propagate: unit propagation over the clauses in the tables, resumable. The visits that change nothing are skipped.
#![tactic(auto)]

ghost use Rattle.std.specs.Prelude.{◌≡◌, false, ℕ, ◌<◌, List, ℤ};
ghost use Rattle.visits.specs.Formed.{Formed};
ghost use Rattle.visits.specs.Visited.{visit_of, visit_at};
ghost use Rattle.visits.specs.declared.Visited.TheVariants.{Conflict};
ghost use Rattle.propagate_visits.specs.Visits.{propagate_clause, going, propagate_visits, begin};
ghost use Rattle.propagate_visits.specs.Steps.{reached_as, StandsBefore, Advanced};
ghost use Rattle.propagate_visits.specs.declared.Stand.TheVariants.{Contradicted};
ghost use Rattle.propagate.specs.Propagate.{propagate_from, propagate_call};
ghost use Rattle.propagate.specs.Steps.{replied_with};
ghost use Rattle.propagate.specs.Listed.{Listed};
ghost use Rattle.tables.specs.Calls.{after};
ghost use Rattle.tables.specs.Tables.{Tables};
ghost use Rattle.tables.specs.Lent.{lent, returned};

use entry::{Entry, PassName};
use occurrences::{Chains, PendingClauses};
use propagate_visits::{Reach, Stand};
use state::{Answer, Counts, Outcome, Pass, State};
use visits::Visited;

// A visit to a pending clause. It is pending no longer, and where its last literal is made true, the clauses in which that variable occurs become pending.
fn visit_pending(
    clauses: &mut [u32],
    literals: &mut [i32],
    variables: &mut [i32],
    chains: &Chains,
    pending: &mut PendingClauses,
    n: u32,
    k: u32,
) -> Visited
    requires stands_before { StandsBefore n k clauses.old literals.old variables.old }
    requires listed { Listed n chains.now.heads chains.now.places pending.old.flags pending.old.blocks clauses.old literals.old variables.old }
    ensures by_index { (times : List ℕ) (links : List ℤ) → visit_of result (returned clauses.new literals.new variables.new times links)
        ≡ visit_at (propagate_clause variables.old) k (lent clauses.old literals.old variables.old times links) }
    ensures listed_2 { (result ≡ Conflict → ⊥) → Listed n chains.now.heads chains.now.places pending.new.flags pending.new.blocks clauses.new literals.new variables.new }
{
    let at = k as usize;
    let seen = propagate_visits::visit_clause(clauses, literals, variables, at);
    pending.clear(at);
    if let Visited::MadeTrue(w) = seen {
        pending.set_pending(chains, w as usize);
    }
    seen
}

// The visits up to the next pending clause, or the visit to it.
fn skip_or_visit(
    clauses: &mut [u32],
    literals: &mut [i32],
    variables: &mut [i32],
    chains: &Chains,
    pending: &mut PendingClauses,
    n: u32,
    room: u32,
    k: u32,
    changed: bool,
) -> Reach
    requires stands_before { StandsBefore n k clauses.old literals.old variables.old }
    requires listed { Listed n chains.now.heads chains.now.places pending.old.flags pending.old.blocks clauses.old literals.old variables.old }
    requires room_nonzero { 0 < room }
    ensures advanced { Advanced n room k changed result clauses.old literals.old variables.old clauses.new literals.new variables.new }
    ensures listed_2 { (result.stand ≡ Contradicted → ⊥) → Listed n chains.now.heads chains.now.places pending.new.flags pending.new.blocks clauses.new literals.new variables.new }
{
    let at = k as usize;
    let j = pending.next(at);
    if at < j {
        return propagate_visits::skip(n, room, k, j as u32, changed);
    }
    let size = clauses[3 * at + 1];
    let seen = visit_pending(clauses, literals, variables, chains, pending, n, k);
    let stand = propagate_visits::stand_after(n, k, changed, size, seen);
    Reach { visits: 1, stand }
}

// The visits of `visit_some`; clauses that are not pending are skipped.
fn visit_skipping(
    clauses: &mut [u32],
    literals: &mut [i32],
    variables: &mut [i32],
    chains: &Chains,
    pending: &mut PendingClauses,
    n: u32,
    steps: u32,
    cursor: u32,
    flag: bool,
) -> Reach
    requires stands_before { StandsBefore n cursor clauses.old literals.old variables.old }
    requires listed { Listed n chains.now.heads chains.now.places pending.old.flags pending.old.blocks clauses.old literals.old variables.old }
    ensures { (times : List ℕ) (links : List ℤ) → reached_as result (returned clauses.new literals.new variables.new times links)
        ≡ propagate_visits n steps 0 (going cursor flag (lent clauses.old literals.old variables.old times links)) }
{
    let mut visits: u32 = 0;
    let mut k = cursor;
    let mut changed = flag;
    while visits < steps {
        let room = steps - visits;
        let reach = skip_or_visit(
            clauses, literals, variables, chains, pending, n, room, k, changed,
        );
        visits += reach.visits;
        let stand = reach.stand;
        let Stand::Going(next, still) = stand else {
            return Reach { visits, stand };
        };
        k = next;
        changed = still;
    }
    Reach {
        visits,
        stand: Stand::Going(k, changed),
    }
}

// The same, with the occurrences listed and every clause pending first.
fn visit_listed(
    clauses: &mut [u32],
    literals: &mut [i32],
    variables: &mut [i32],
    n: u32,
    steps: u32,
    cursor: u32,
    flag: bool,
) -> Reach
    requires { StandsBefore n cursor clauses.old literals.old variables.old }
    ensures { (times : List ℕ) (links : List ℤ) → reached_as result (returned clauses.new literals.new variables.new times links)
        ≡ propagate_visits n steps 0 (going cursor flag (lent clauses.old literals.old variables.old times links)) }
{
    let mut chains = Chains {
        heads: [0; 1025],
        places: [0; 32768],
    };
    chains.link(clauses, literals, n);
    let mut pending = PendingClauses::all();
    visit_skipping(
        clauses,
        literals,
        variables,
        &chains,
        &mut pending,
        n,
        steps,
        cursor,
        flag,
    )
}

// As many visits as `steps` says, or as the pass has left, from clause `cursor` on. A pass that goes through the clauses more than a few times skips the visits that change nothing from then on.
fn visit_some(
    clauses: &mut [u32],
    literals: &mut [i32],
    variables: &mut [i32],
    n: u32,
    steps: u32,
    cursor: u32,
    flag: bool,
) -> Reach
    requires { StandsBefore n cursor clauses.old literals.old variables.old }
    ensures { (times : List ℕ) (links : List ℤ) → reached_as result (returned clauses.new literals.new variables.new times links)
        ≡ propagate_visits n steps 0 (going cursor flag (lent clauses.old literals.old variables.old times links)) }
{
    let first = steps.min(4 * n);
    let reach = propagate_visits::visit_each(clauses, literals, variables, n, first, cursor, flag);
    let Stand::Going(k, changed) = reach.stand else {
        return reach;
    };
    if first == steps {
        return reach;
    }
    let more = visit_listed(clauses, literals, variables, n, steps - first, k, changed);
    Reach {
        visits: reach.visits + more.visits,
        stand: more.stand,
    }
}

// The answer of a call that has made its visits.
fn answer(st: State, fresh: bool, counts: Counts, stand: Stand) -> Outcome
    ensures { (t : Tables) → after result t ≡ replied_with fresh counts st stand t }
{
    match stand {
        Stand::Going(k, changed) => Outcome {
            answer: Ok(Answer::Open(counts)),
            state: st.opened(Pass::Propagate(k, changed), fresh),
        },
        Stand::Settled => Outcome {
            answer: Ok(Answer::Done(counts)),
            state: st.closed(fresh),
        },
        Stand::Contradicted => Outcome {
            answer: Ok(Answer::Done(counts)),
            state: st.marked(),
        },
    }
}

// The visits of a call that stands before clause `cursor`, and its answer. The visits set values at class literals, and behind them every variable gets its own.
fn propagate_from(
    clauses: &mut [u32],
    literals: &mut [i32],
    variables: &mut [i32],
    st: State,
    fresh: bool,
    steps: u32,
    cursor: u32,
    flag: bool,
) -> Outcome
    requires { Formed st.v st.n st.n false clauses.old literals.old variables.old × (cursor < st.n) }
    ensures { (times : List ℕ) (links : List ℤ) → after result (returned clauses.new literals.new variables.new times links)
        ≡ propagate_from fresh steps (going cursor flag (lent clauses.old literals.old variables.old times links))
        (lent clauses.old literals.old variables.old times links) st }
{
    let n = st.n;
    let before = visits::count_standing(clauses, n as usize);
    let reach = visit_some(clauses, literals, variables, n, steps, cursor, flag);
    spread::spread(variables, st.v);
    let left = visits::count_standing(clauses, n as usize);
    let counts = visits::counts_of(reach.visits, before, left);
    answer(st, fresh, counts, reach.stand)
}

// A call that opens the pass: with no clause it is done at once. The tables keep the shape rule: `entry::entry_of` has checked it, and for a run the passes before keep it (`propagate_shaped`, `merge_shaped`).
pub fn open_pass(
    clauses: &mut [u32],
    literals: &mut [i32],
    variables: &mut [i32],
    st: State,
    steps: u32,
) -> Outcome
    requires { Formed st.v st.n st.n false clauses.old literals.old variables.old }
    ensures { (times : List ℕ) (links : List ℤ) → after result (returned clauses.new literals.new variables.new times links)
        ≡ propagate_from false steps (begin st.n (lent clauses.old literals.old variables.old times links))
        (lent clauses.old literals.old variables.old times links) st }
{
    let n = st.n;
    if n == 0 {
        let none = Counts {
            visits: 0,
            clauses: 0,
            literals: 0,
        };
        spread::spread(variables, st.v);
        return answer(st, false, none, Stand::Settled);
    }
    propagate_from(clauses, literals, variables, st, false, steps, 0, false)
}

// The exported call.
pub fn propagate(
    clauses: &mut [u32],
    literals: &mut [i32],
    variables: &mut [i32],
    times: &[u32],
    links: &[i32],
    st: State,
    n: u16,
) -> Outcome
    ensures { after result (returned clauses.new literals.new variables.new times.now links.now)
        ≡ propagate_call n (lent clauses.old literals.old variables.old times.now links.now) st }
{
    let own = PassName::Propagate;
    match entry::entry_of(clauses, literals, variables, times, links, st, own) {
        Err(refusal) => Outcome {
            answer: Err(refusal),
            state: st,
        },
        Ok(Entry::Opens) => open_pass(clauses, literals, variables, st, n as u32),
        Ok(Entry::Resumes(k, changed)) => {
            let fresh = st.fresh;
            let steps = n as u32;
            propagate_from(clauses, literals, variables, st, fresh, steps, k, changed)
        }
    }
}
