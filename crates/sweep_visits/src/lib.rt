// The visits of Sweep: hidden tautologies are dropped and hidden literals removed, by fresh stamps, clause by clause.
#![tactic(auto)]

ghost use Rattle.std.specs.Prelude.{◌≡◌, List, ℕ, ◌+◌, ◌≤◌, length, ℤ};
ghost use Rattle.stamp_columns.specs.Columns.{columns};
ghost use Rattle.tables.specs.Lent.{lent, returned};
ghost use Rattle.tables.specs.Fates.{visits};
ghost use Rattle.visits.specs.Visited.{part_of, part_after, visit_of, visit_at};
ghost use Rattle.hidden_tautologies.specs.Judged.{Judged};
ghost use Rattle.sweep_visits.specs.Clause.{sweep_clause};
ghost use Rattle.sweep_visits.specs.Visits.{Sweepable, SweepableFrom};

use visits::Visited;

// A visit to the part of a standing clause, or to a learnt clause. `slots` and `twins` are as long as the part, and only worked in.
pub fn visit_part(
    part: &mut [i32],
    times: &[u32],
    links: &[i32],
    slots: &mut [u32],
    twins: &mut [u32],
) -> Visited
    requires { Judged times.now links.now part.old × (length part.old ≤ 16384) × (length slots.old ≡ length part.old) × (length twins.old ≡ length part.old) }
    ensures { part_of result part.new ≡ part_after (sweep_clause (columns times.now links.now) part.old) part.old }
{
    if part.len() < 2 {
        return Visited::Kept;
    }
    if hidden_tautologies::hidden_tautology(part, times, links, slots, twins) {
        literal::zero_from(part, 0);
        return Visited::Dropped;
    }
    let n = hidden_literals::shorten_part(part, slots, twins, times);
    Visited::Left(n as u32)
}

// A visit to clause k. Its part of the literal table is lent on; a dropped clause has none, and its visit changes nothing.
fn visit_clause(
    clauses: &mut [u32],
    literals: &mut [i32],
    times: &[u32],
    links: &[i32],
    slots: &mut [u32],
    twins: &mut [u32],
    k: usize,
) -> Visited
    requires { SweepableFrom k 1 clauses.old literals.old times.now links.now × (16384 ≤ length slots.old) × (16384 ≤ length twins.old) }
    ensures { (variables : List ℤ) → visit_of result (returned clauses.new literals.new variables times.now links.now)
        ≡ visit_at (sweep_clause (columns times.now links.now)) k (lent clauses.old literals.old variables times.now links.now) }
{
    let mut visit = |part: &mut [i32]| {
        let len = part.len();
        visit_part(part, times, links, &mut slots[..len], &mut twins[..len])
    };
    visits::visit_clause(clauses, literals, k, &mut visit)
}

// Visits to m clauses from clause k on. The tables keep the shape rule with fresh stamps, as `sweep::sweep_entered` has it, and `sweep_from` makes the room for slots.
pub fn sweep_visits(
    clauses: &mut [u32],
    literals: &mut [i32],
    times: &[u32],
    links: &[i32],
    slots: &mut [u32],
    twins: &mut [u32],
    k: usize,
    m: usize,
)
    requires { SweepableFrom k m clauses.old literals.old times.now links.now × (16384 ≤ length slots.old) × (16384 ≤ length twins.old) }
    ensures { ((n : ℕ) → k + m ≤ n → Sweepable n clauses.old literals.old times.now links.now → Sweepable n clauses.new literals.new times.now links.now)
        × ((variables : List ℤ) → returned clauses.new literals.new variables times.now links.now
        ≡ visits (sweep_clause (columns times.now links.now)) m k (lent clauses.old literals.old variables times.now links.now)) }
{
    for i in 0..m {
        visit_clause(clauses, literals, times, links, slots, twins, k + i);
    }
}
