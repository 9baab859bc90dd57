// The visits of Propagate: unit propagation over one clause in the tables, and where the pass then stands.
#![tactic(auto)]

ghost use Rattle.std.specs.Prelude.{◌≡◌, false, ℕ, ◌+◌, ◌≤◌, ◌<◌, length, List, ℤ};
ghost use Rattle.base.specs.Lists.{any};
ghost use Rattle.tables.specs.Values.{is_true};
ghost use Rattle.visits.specs.Formed.{EachKnown};
ghost use Rattle.literal.specs.Holding.{holding};
ghost use Rattle.visits.specs.Visited.{Visitable, part_of, part_after, variables_after, visit_of, visit_at};
ghost use Rattle.propagate_visits.specs.Visits.{not_false, propagate_clause, going, onward, propagate_visit, propagate_visits};
ghost use Rattle.propagate_visits.specs.Steps.{progress_of, stand_after, reached_as, StandsBefore};
ghost use Rattle.tables.specs.Tables.{Tables};
ghost use Rattle.tables.specs.Lent.{lent, returned};

use visits::Visited;

// Where the pass stands: before a clause, with the change flag; it has gone through the clauses with no change; it has met the empty clause.
#[derive(Clone, Copy)]
pub enum Stand {
    Going(u32, bool),
    Settled,
    Contradicted,
}

// The visits made, and where the pass then stands.
#[derive(Clone, Copy)]
pub struct Reach {
    pub visits: u32,
    pub stand: Stand,
}

// Whether a literal of the part is true.
fn any_true(part: &[i32], variables: &[i32]) -> bool
    requires { EachKnown variables.now part.now }
    ensures { result ≡ any (is_true variables.now) part.now }
{
    part.iter().any(|&l| visits::is_true(variables, l))
}

// Keeps the literals that are not false, in order at the front, with 0 behind; how many stay.
fn remove_false(part: &mut [i32], variables: &[i32]) -> usize
    requires { EachKnown variables.now part.old }
    ensures { (result ≡ length (not_false variables.now part.old))
        × (part.new ≡ holding (not_false variables.now part.old) part.old) }
{
    let mut n = 0;
    for i in 0..part.len() {
        let l = part[i];
        if !visits::is_false(variables, l) {
            part[n] = l;
            n += 1;
        }
    }
    literal::zero_from(part, n);
    n
}

// A visit to the part of a standing clause.
fn visit_part(part: &mut [i32], variables: &mut [i32]) -> Visited
    requires { EachKnown variables.old part.old × (length part.old ≤ 16384) }
    ensures { (part_of result part.new ≡ part_after (propagate_clause variables.old part.old) part.old)
        × (variables.new ≡ variables_after (propagate_clause variables.old part.old) variables.old) }
{
    if any_true(part, variables) {
        literal::zero_from(part, 0);
        return Visited::Dropped;
    }
    match remove_false(part, variables) {
        0 => Visited::Conflict,
        1 => {
            let l = part[0];
            visits::set_true(variables, l);
            part[0] = 0;
            Visited::MadeTrue(literal::var_of(l) as u32)
        }
        n => Visited::Left(n as u32),
    }
}

// A visit to clause k. Its part of the literal table is lent on. The tables keep the shape rule and the clause is one of theirs, as for every visit of a pass that has passed its entry.
pub fn visit_clause(
    clauses: &mut [u32],
    literals: &mut [i32],
    variables: &mut [i32],
    k: usize,
) -> Visited
    requires { Visitable k clauses.old literals.old variables.old }
    ensures { (times : List ℕ) (links : List ℤ) → visit_of result (returned clauses.new literals.new variables.new times links)
        ≡ visit_at (propagate_clause variables.old) k (lent clauses.old literals.old variables.old times links) }
{
    let mut visit = |part: &mut [i32]| visit_part(part, variables);
    visits::visit_clause(clauses, literals, k, &mut visit)
}

// Where the pass goes on after the visit before clause k: through the clauses again if this time changed something.
fn onward(n: u32, k: u32, changed: bool) -> Stand
    ensures { (t : Tables) → progress_of result t ≡ onward n k changed t }
{
    if k < n {
        Stand::Going(k, changed)
    } else if changed {
        Stand::Going(0, false)
    } else {
        Stand::Settled
    }
}

// Where the pass stands after a visit to clause k, which had `size` literals. The pass stands before clause k, and n is within its limit by the shape rule.
pub fn stand_after(n: u32, k: u32, changed: bool, size: u32, seen: Visited) -> Stand
    requires { (k < n) × (n ≤ 4096) }
    ensures { (t : Tables) → progress_of result t ≡ stand_after n k changed size seen t }
{
    match seen {
        Visited::Kept => onward(n, k + 1, changed),
        Visited::Left(m) => onward(n, k + 1, changed || m < size),
        Visited::Dropped | Visited::MadeTrue(_) => onward(n, k + 1, true),
        Visited::Conflict => Stand::Contradicted,
    }
}

// One visit, and where the pass stands after it.
fn step(
    clauses: &mut [u32],
    literals: &mut [i32],
    variables: &mut [i32],
    n: u32,
    k: u32,
    changed: bool,
) -> Stand
    requires { StandsBefore n k clauses.old literals.old variables.old }
    ensures { (times : List ℕ) (links : List ℤ) → progress_of result (returned clauses.new literals.new variables.new times links)
        ≡ propagate_visit n k changed (lent clauses.old literals.old variables.old times links) }
{
    let at = k as usize;
    let size = clauses[3 * at + 1];
    let seen = visit_clause(clauses, literals, variables, at);
    stand_after(n, k, changed, size, seen)
}

// As many visits as `steps` says, or as the pass has left, from clause `cursor` on: one after the other. The pass stands before clause `cursor` of tables that keep the shape rule: `entry::entry_of` has checked it, or `open_pass` begins there.
pub fn visit_each(
    clauses: &mut [u32],
    literals: &mut [i32],
    variables: &mut [i32],
    n: u32,
    steps: u32,
    cursor: u32,
    flag: bool,
) -> Reach
    requires { StandsBefore n cursor clauses.old literals.old variables.old }
    ensures { (times : List ℕ) (links : List ℤ) → reached_as result (returned clauses.new literals.new variables.new times links)
        ≡ propagate_visits n steps 0 (going cursor flag (lent clauses.old literals.old variables.old times links)) }
{
    let mut k = cursor;
    let mut changed = flag;
    for made in 0..steps {
        let stand = step(clauses, literals, variables, n, k, changed);
        let Stand::Going(next, still) = stand else {
            let visits = made + 1;
            return Reach { visits, stand };
        };
        k = next;
        changed = still;
    }
    Reach {
        visits: steps,
        stand: Stand::Going(k, changed),
    }
}

// Visits that change nothing, from clause k up to clause j, at most `room` of them: they only move the cursor. `propagate::skip_or_visit` calls it where the next pending clause lies behind k and visits are left.
pub fn skip(n: u32, room: u32, k: u32, j: u32, changed: bool) -> Reach
    requires { (k < n) × ((k < j) × (0 < room)) }
    ensures visits_nonzero { (0 < result.visits) × ((result.visits ≤ room) × ((k + result.visits ≤ n) × (k + result.visits ≤ j))) }
    ensures t_value { (t : Tables) → progress_of result.stand t ≡ onward n (k + result.visits) changed t }
{
    let end = j.min(n);
    let visits = room.min(end - k);
    let stand = onward(n, k + visits, changed);
    Reach { visits, stand }
}
