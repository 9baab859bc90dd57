// Sweep: hidden tautologies are dropped and hidden literals removed, by fresh stamps, clause by clause, resumable.
#![tactic(auto)]

ghost use Rattle.std.specs.Prelude.{◌≡◌, true, List, ◌≤◌, ℤ};
ghost use Rattle.tables.specs.Lent.{lent, returned};
ghost use Rattle.tables.specs.Calls.{after};
ghost use Rattle.sweep_visits.specs.Visits.{Sweepable};
ghost use Rattle.sweep.specs.Sweep.{sweep_from, sweep_unless_stale, sweep_call};

use entry::{Entry, PassName};
use state::{Answer, Outcome, Pass, Refusal, State};

// Sweep from clause `cursor` on: as many visits as `steps` says, or as are left. The two tables of slots serve every visit.
fn sweep_from(
    clauses: &mut [u32],
    literals: &mut [i32],
    times: &[u32],
    links: &[i32],
    st: State,
    cursor: u32,
    steps: u32,
) -> Outcome
    requires { Sweepable st.n clauses.old literals.old times.now links.now × (cursor ≤ st.n) }
    ensures { (variables : List ℤ) → after result (returned clauses.new literals.new variables times.now links.now)
        ≡ sweep_from steps cursor (lent clauses.old literals.old variables times.now links.now) st }
{
    let mut slots = [0u32; 16384];
    let mut twins = [0u32; 16384];
    let n = st.n;
    let before = visits::count_standing(clauses, n as usize);
    let m = steps.min(n - cursor);
    sweep_visits::sweep_visits(
        clauses,
        literals,
        times,
        links,
        &mut slots,
        &mut twins,
        cursor as usize,
        m as usize,
    );
    let left = visits::count_standing(clauses, n as usize);
    let counts = visits::counts_of(m, before, left);
    let k = cursor + m;
    visits::answer_at(st, Pass::Sweep(k), true, false, counts, k)
}

// A call that no refusal above 9 stops: it opens the pass or resumes it, from clause `cursor` on. Run enters here. Where stamps are fresh, the shape rule has them so: `entry::entry_of` has checked it for the call, and for a run the passes before keep it.
pub fn sweep_entered(
    clauses: &mut [u32],
    literals: &mut [i32],
    times: &[u32],
    links: &[i32],
    st: State,
    cursor: u32,
    n: u32,
) -> Outcome
    requires { (st.fresh ≡ true → Sweepable st.n clauses.old literals.old times.now links.now) × (cursor ≤ st.n) }
    ensures { (variables : List ℤ) → after result (returned clauses.new literals.new variables times.now links.now)
        ≡ sweep_unless_stale st.fresh n cursor (lent clauses.old literals.old variables times.now links.now) st }
{
    if !st.fresh {
        return Outcome {
            answer: Err(Refusal::Stale),
            state: st,
        };
    }
    sweep_from(clauses, literals, times, links, st, cursor, n)
}

// Sweep: n visits, or as many as the pass has left. The call that finds no pass open opens it.
pub fn sweep(
    clauses: &mut [u32],
    literals: &mut [i32],
    variables: &[i32],
    times: &[u32],
    links: &[i32],
    st: State,
    n: u16,
) -> Outcome
    ensures { after result (returned clauses.new literals.new variables.now times.now links.now)
        ≡ sweep_call n (lent clauses.old literals.old variables.now times.now links.now) st }
{
    let own = PassName::Sweep;
    match entry::entry_of(clauses, literals, variables, times, links, st, own) {
        Err(refusal) => Outcome {
            answer: Err(refusal),
            state: st,
        },
        Ok(Entry::Opens) => sweep_entered(clauses, literals, times, links, st, 0, n as u32),
        Ok(Entry::Resumes(k, _)) => sweep_entered(clauses, literals, times, links, st, k, n as u32),
    }
}
