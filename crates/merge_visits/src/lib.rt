// The visits of Merge: class literals are put into a clause, repeats go, and a clause with both signs of a variable is dropped.
#![tactic(auto)]

ghost use Rattle.std.specs.Prelude.{◌≡◌, List, map, ℕ, ◌-◌, ◌≤◌, length, ℤ};
ghost use Rattle.repeats.specs.Marks.{no_marks};
ghost use Rattle.tables.specs.Lent.{lent, returned};
ghost use Rattle.tables.specs.Values.{class_literal};
ghost use Rattle.tables.specs.Fates.{visits};
ghost use Rattle.visits.specs.Formed.{EachKnown};
ghost use Rattle.visits.specs.Visited.{Visitable, part_of, part_after, visit_of, visit_at};
ghost use Rattle.merge_visits.specs.Clause.{merge_clause};
ghost use Rattle.merge_visits.specs.Visits.{Mergeable};

use visits::Visited;

// Puts each literal's class literal in its place.
fn substitute(part: &mut [i32], variables: &[i32])
    requires { EachKnown variables.now part.old }
    ensures { part.new ≡ map (class_literal variables.now) part.old }
{
    for l in part.iter_mut() {
        *l = visits::class_literal(variables, *l);
    }
}

// A visit to the part of a standing clause. Repeats go first, so that both signs are looked for in what would stay.
fn visit_part(part: &mut [i32], variables: &[i32], marks: &mut [u32]) -> Visited
    requires { EachKnown variables.now part.old × (length part.old ≤ 16384) × (marks.old ≡ no_marks) }
    ensures { (part_of result part.new ≡ part_after (merge_clause variables.now part.old) part.old)
        × (marks.new ≡ no_marks) }
{
    substitute(part, variables);
    let kept = repeats::remove_repeats(part, marks);
    if kept.both {
        literal::zero_from(part, 0);
        return Visited::Dropped;
    }
    Visited::Left(kept.count as u32)
}

// A visit to clause k. Its part of the literal table is lent on; a dropped clause has none, and its visit changes nothing.
fn visit_clause(
    clauses: &mut [u32],
    literals: &mut [i32],
    variables: &[i32],
    marks: &mut [u32],
    k: usize,
) -> Visited
    requires { Visitable k clauses.old literals.old variables.now × (marks.old ≡ no_marks) }
    ensures { ((times : List ℕ) (links : List ℤ) → visit_of result (returned clauses.new literals.new variables.now times links)
        ≡ visit_at (merge_clause variables.now) k (lent clauses.old literals.old variables.now times links)) × (marks.new ≡ no_marks) }
{
    let mut visit = |part: &mut [i32]| visit_part(part, variables, marks);
    visits::visit_clause(clauses, literals, k, &mut visit)
}

// The visits to the clauses from `k` on, up to clause `end`. They share the marks, which each leaves as it found them. The tables keep the shape rule: `entry::entry_of` has checked it, and the opening of Merge keeps it.
pub fn visit_some(clauses: &mut [u32], literals: &mut [i32], variables: &[i32], k: u32, end: u32)
    requires { Mergeable k end clauses.old literals.old variables.now }
    ensures { (times : List ℕ) (links : List ℤ) → returned clauses.new literals.new variables.now times links
        ≡ visits (merge_clause variables.now) (end - k) k (lent clauses.old literals.old variables.now times links) }
{
    let mut marks = [0u32; 2049];
    for i in k..end {
        visit_clause(clauses, literals, variables, &mut marks, i as usize);
    }
}
