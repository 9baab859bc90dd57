// Classes and values of literals, and the clauses in the tables: what the passes that visit clauses share.
#![tactic(auto)]

ghost use Rattle.std.specs.Prelude.{◌≡◌, ◌*◌, ◌-◌, ◌≤◌, ℕ, ◌+◌, ◌<◌, ◌++◌, take, drop, length, set, List, ℤ, MatchOption};
ghost use Rattle.std.specs.Fn.{Takes, CalledAtMut};
ghost use denote.Ref.{MutBor};
ghost use Rattle.tables.specs.Values.{class_literal, own_truth, truth, is_true, is_false, set_true};
ghost use Rattle.tables.specs.Clauses.{literals_of, standing_count, literal_count};
ghost use Rattle.visits.specs.Formed.{Known, Counted, EachKnown};
ghost use Rattle.base.specs.Lists.{any};
ghost use Rattle.tables.specs.Lent.{lent};
ghost use Rattle.tables.specs.Passes.{valued, unsettled, first_unsettled};
ghost use Rattle.tables.specs.Tables.{Tables, start_of, length_of, standing};
ghost use Rattle.tables.specs.Calls.{after};
ghost use Rattle.visits.specs.Settled.{Asked};
ghost use Rattle.visits.specs.Visited.{Placed, record_after, stands_at};
ghost use Rattle.visits.specs.declared.Visited.TheVariants.{Kept};

use state::{Answer, Counts, Outcome, Pass, State};

// The class literal of l. Its variable has a record, and its class is a literal in range: the shape rule has both, here and in the functions on a literal below.
pub fn class_literal(variables: &[i32], l: i32) -> i32
    requires { Known variables.now l }
    ensures { result ≡ class_literal variables.now l }
{
    let w = literal::var_of(l);
    literal::signed_by(l, variables[2 * w - 2])
}

// The value of the variable of c, with c's sign.
fn own_truth(variables: &[i32], c: i32) -> i32
    requires { Known variables.now c }
    ensures { result ≡ own_truth variables.now c }
{
    let w = literal::var_of(c);
    literal::signed_by(c, variables[2 * w - 1])
}

// 1 for a true literal, -1 for a false one, 0 for one that has no value: as the value of its class literal says.
fn truth(variables: &[i32], l: i32) -> i32
    requires { Known variables.now l }
    ensures { result ≡ truth variables.now l }
{
    let c = class_literal(variables, l);
    own_truth(variables, c)
}

// Whether l is true, as the value of its class literal says.
pub fn is_true(variables: &[i32], l: i32) -> bool
    requires { Known variables.now l }
    ensures { result ≡ is_true variables.now l }
{
    truth(variables, l) == 1
}

// Whether l is false.
pub fn is_false(variables: &[i32], l: i32) -> bool
    requires { Known variables.now l }
    ensures { result ≡ is_false variables.now l }
{
    truth(variables, l) == -1
}

// Makes l true: the value is set at its class literal.
pub fn set_true(variables: &mut [i32], l: i32)
    requires { Known variables.old l }
    ensures { variables.new ≡ set_true variables.old l }
{
    let c = class_literal(variables, l);
    let w = literal::var_of(c);
    variables[2 * w - 1] = literal::signed_by(c, 1);
}

// ---- the record of a clause: that it lies in its table, and the clause's part in the literal table, follows from the shape rule, which a call checks first

// Whether clause k stands: 1, or 0 where it is dropped. The clause is one of N, here and in the functions on its record below, and the record lies in the table by the shape check.
pub fn flag_of(clauses: &[u32], k: usize) -> u32
    requires { Placed k clauses.now }
    ensures { result ≡ standing clauses.now k }
{
    clauses[3 * k + 2]
}

// Where the part of clause k starts in the literal table.
pub fn part_start(clauses: &[u32], k: usize) -> usize
    requires { Placed k clauses.now }
    ensures { result ≡ start_of clauses.now k }
{
    clauses[3 * k] as usize
}

// And where it ends.
pub fn part_end(clauses: &[u32], k: usize) -> usize
    requires { Placed k clauses.now }
    ensures { result ≡ start_of clauses.now k + length_of clauses.now k }
{
    clauses[3 * k] as usize + clauses[3 * k + 1] as usize
}

// Clause k has n literals.
fn set_length(clauses: &mut [u32], k: usize, n: u32)
    requires { (3 * k + 2 < length clauses.old) × (k ≤ 4096) }
    ensures { clauses.new ≡ set clauses.old (3 * k + 1) n }
{
    clauses[3 * k + 1] = n;
}

// Clause k is dropped.
fn drop_record(clauses: &mut [u32], k: usize)
    requires { (3 * k + 2 < length clauses.old) × (k ≤ 4096) }
    ensures { clauses.new ≡ set (set clauses.old (3 * k + 1) 0) (3 * k + 2) 0 }
{
    clauses[3 * k + 1] = 0;
    clauses[3 * k + 2] = 0;
}

// What a visit makes of a clause: nothing changes; so many literals are left; it is dropped; it is dropped and its last literal, of this variable, made true; it stands empty.
#[derive(Clone, Copy)]
pub enum Visited {
    Kept,
    Left(u32),
    Dropped,
    MadeTrue(u32),
    Conflict,
}

// The record of clause k after a visit.
pub fn put_record(clauses: &mut [u32], k: usize, seen: Visited)
    requires { (3 * k + 2 < length clauses.old) × (k ≤ 4096) }
    ensures { clauses.new ≡ record_after k seen clauses.old }
{
    match seen {
        Visited::Kept => {}
        Visited::Left(n) => set_length(clauses, k, n),
        Visited::Dropped | Visited::MadeTrue(_) => drop_record(clauses, k),
        Visited::Conflict => set_length(clauses, k, 0),
    }
}

// A visit to clause k: `visit` gets its part of the literal table, and the record is put by what it answers. A dropped clause has no part, and its visit changes nothing.
// The closure is lent and not given: so its caller knows what it holds after the call.
pub fn visit_clause<F: FnMut(&mut [i32]) -> Visited>(
    clauses: &mut [u32],
    literals: &mut [i32],
    k: usize,
    visit: &mut F,
) -> Visited
    requires placed { Placed k clauses.old }
    requires inside { start_of clauses.old k + length_of clauses.old k ≤ length literals.old }
    requires callable { (part : MutBor (List ℤ)) → part.now ≡ literals_of clauses.old literals.old k → Takes F.FnMut visit.old (part, tt) }
    ensures gone { standing clauses.old k ≡ 0 → (result ≡ Kept) × (clauses.new ≡ clauses.old) × (literals.new ≡ literals.old) × (visit.new ≡ visit.old) }
    ensures seen { (standing clauses.old k ≡ 0 → ⊥) → (part : List ℤ) × CalledAtMut F.FnMut visit.old (literals_of clauses.old literals.old k) result visit.new part × (clauses.new ≡ record_after k result clauses.old)
        × (literals.new ≡ take (start_of clauses.old k) literals.old ++ (part ++ drop (start_of clauses.old k + length_of clauses.old k) literals.old)) }
{
    if flag_of(clauses, k) == 0 {
        return Visited::Kept;
    }
    let start = part_start(clauses, k);
    let end = part_end(clauses, k);
    let seen = visit(&mut literals[start..end]);
    put_record(clauses, k, seen);
    seen
}

// ---- counts

// How many clauses stand, and how many literals stand in them.
#[derive(Clone, Copy)]
pub struct Totals {
    pub clauses: u32,
    pub literals: u32,
}

// Counts the clauses and literals that stand among the first n. Their parts lie in the literal table by the shape rule, so that the counts fit.
pub fn count_standing(clauses: &[u32], n: usize) -> Totals
    requires { Counted n clauses.now }
    ensures { (result.clauses ≡ standing_count (take (3 * n) clauses.now)) × (result.literals ≡ literal_count (take (3 * n) clauses.now)) }
{
    let mut standing = 0;
    let mut literals = 0;
    for i in 0..n {
        let size = clauses[3 * i + 1];
        let flag = clauses[3 * i + 2];
        if flag != 0 {
            standing += 1;
            literals += size;
        }
    }
    Totals {
        clauses: standing,
        literals,
    }
}

// What a call answers: the visits made, and what stood before minus what stands after.
pub fn counts_of(visits: u32, before: Totals, after: Totals) -> Counts
    ensures { (result.visits ≡ visits) × (result.clauses ≡ before.clauses - after.clauses) × (result.literals ≡ before.literals - after.literals) }
{
    Counts {
        visits,
        clauses: before.clauses.saturating_sub(after.clauses),
        literals: before.literals.saturating_sub(after.literals),
    }
}

// The answer of a call that has made its visits and stands before clause k, of a pass that goes through the clauses once: Open, with this pass, exactly if visits are left.
pub fn answer_at(
    st: State,
    pass: Pass,
    fresh_open: bool,
    fresh_done: bool,
    counts: Counts,
    k: u32,
) -> Outcome
    ensures { (t : Tables) → after result t ≡ stands_at pass fresh_open fresh_done counts k st t }
{
    if k < st.n {
        Outcome {
            answer: Ok(Answer::Open(counts)),
            state: st.opened(pass, fresh_open),
        }
    } else {
        Outcome {
            answer: Ok(Answer::Done(counts)),
            state: st.closed(fresh_done),
        }
    }
}

// ---- refusal 6

// Refusal 6: the first standing clause of one literal, or with a valued variable.

// Whether the variable of l has a value.
fn is_valued(variables: &[i32], l: i32) -> bool
    requires { Known variables.now l }
    ensures { result ≡ valued variables.now l }
{
    let w = literal::var_of(l);
    variables[2 * w - 1] != 0
}

// Whether a literal of the part has a valued variable.
fn any_valued(part: &[i32], variables: &[i32]) -> bool
    requires { EachKnown variables.now part.now }
    ensures { result ≡ any (valued variables.now) part.now }
{
    part.iter().any(|&l| is_valued(variables, l))
}

// Whether clause i stands and has one literal, or a valued variable.
fn is_unsettled(clauses: &[u32], literals: &[i32], variables: &[i32], i: usize) -> bool
    requires { Asked i clauses.now literals.now variables.now }
    ensures { (times : List ℕ) (links : List ℤ) → result ≡ unsettled (lent clauses.now literals.now variables.now times links) i }
{
    let size = clauses[3 * i + 1];
    let part = &literals[part_start(clauses, i)..part_end(clauses, i)];
    flag_of(clauses, i) == 1 && (size == 1 || any_valued(part, variables))
}

// The first such clause of n, counted from 0, if there is one. The clauses lie in the tables by the shape rule.
pub fn first_unsettled(
    clauses: &[u32],
    literals: &[i32],
    variables: &[i32],
    n: usize,
) -> Option<usize>
    requires { ((i : ℕ) → i < n → Asked i clauses.now literals.now variables.now) × (n ≤ 4096) }
    ensures { (times : List ℕ) (links : List ℤ) → MatchOption result (first_unsettled (lent clauses.now literals.now variables.now times links) n ≡ n) (λ i. (i ≡ first_unsettled (lent clauses.now literals.now variables.now times links) n) × (i < n)) }
{
    for i in 0..n {
        if is_unsettled(clauses, literals, variables, i) {
            return Some(i);
        }
    }
    None
}
