// The call that tells why (document 02, CR 7): what a Sweep would do to a clause, and the chains of literals that show it. It opens no pass, and changes neither tables nor state.
#![tactic(auto)]

ghost use Rattle.std.specs.Prelude.{◌≡◌, List, [], ◌∷◌, map, ℕ, ◌+◌, ◌*◌, ◌≤◌, ◌<◌, length, take, drop, set, ℤ};
ghost use Rattle.literal.specs.Literals.{Literal, slot_of};
ghost use Rattle.stamp_columns.specs.Columns.{columns};
ghost use Rattle.hidden.specs.Hidden.{holds, unhidden};
ghost use Rattle.clause_slots.specs.Stamped.{Stamped};
ghost use Rattle.state.specs.declared.Verdict.TheVariants.{Nothing, Drop};
ghost use Rattle.tables.specs.Lent.{lent};
ghost use Rattle.visits.specs.Visited.{part_of, part_after};
ghost use Rattle.sweep_visits.specs.Clause.{sweep_clause};
ghost use Rattle.write.specs.Write.{after_write};
ghost use Rattle.chains.specs.Climbing.{Chained};
ghost use Rattle.explain.specs.Reasons.{begins, holds_other, first_held, first_holder, ends_in, pair_ends, long_ends, drop_ends, left_out, reasons, taken_out, reasons_of, Reasons};
ghost use Rattle.explain.specs.Explain.{explain_into, explain_literals, stands, explain_unless_stale, explain_call};
ghost use Rattle.explain.specs.Asking.{Timed, Clause, Listed, LeftOf, Says, Ready};

use chains::Ends;
use state::{Answer, Refusal, State, Verdict};
use visits::Visited;

// ---- the earliest literal

// Whether the interval of l holds that of m, another literal. Both have times.
fn holds_other(times: &[u32], l: i32, m: i32) -> bool
    requires { (4096 ≤ length times.now) × Literal 1024 l × Literal 1024 m }
    ensures { (links : List ℤ) → result ≡ holds_other (columns times.now links) l m }
{
    let a = literal::slot_of(l) as u32;
    let b = literal::slot_of(m) as u32;
    b != a && hidden::holds(times, a, b)
}

// The first literal of the part, other than l, that l holds.
fn first_held(part: &[i32], times: &[u32], l: i32) -> Option<i32>
    requires { Timed times.now part.now × Literal 1024 l }
    ensures { (links : List ℤ) → result ≡ first_held (columns times.now links) part.now l }
{
    for &m in part {
        if holds_other(times, l, m) {
            return Some(m);
        }
    }
    None
}

// The first literal of the part, other than l, whose complement holds that of l.
fn first_holder(part: &[i32], times: &[u32], l: i32) -> Option<i32>
    requires { Timed times.now part.now × Literal 1024 l }
    ensures { (links : List ℤ) → result ≡ first_holder (columns times.now links) part.now l }
{
    for &m in part {
        if holds_other(times, -m, -l) {
            return Some(m);
        }
    }
    None
}

// ---- the ends of a chain

// Of the two edges of (a or b) the first that is the reason.
fn pair_ends(times: &[u32], links: &[i32], a: i32, b: i32) -> Ends
    requires { (v : ℕ) × Stamped v times.now links.now × Literal v a × Literal v b }
    ensures { result ≡ pair_ends (columns times.now links.now) a b }
{
    let p = literal::slot_of(-a) as u32;
    let q = literal::slot_of(b) as u32;
    if hidden_tautologies::transitive(times, links, p, q) {
        return Ends { top: -a, bottom: b };
    }
    Ends { top: -b, bottom: a }
}

// The first literal whose complement holds one of the part, and the first that it holds.
fn long_ends(part: &[i32], times: &[u32]) -> Option<Ends>
    requires { Timed times.now part.now }
    ensures { (links : List ℤ) → result ≡ long_ends (columns times.now links) part.now part.now }
{
    for &a in part {
        let top = -a;
        if let Some(bottom) = first_held(part, times, top) {
            return Some(Ends { top, bottom });
        }
    }
    None
}

// Why the clause is dropped. Where it is, and has more than two literals, `long_ends` finds its ends.
fn drop_ends(part: &[i32], times: &[u32], links: &[i32]) -> Ends
    requires { Clause times.now links.now part.now }
    ensures { result ≡ drop_ends (columns times.now links.now) part.now }
{
    if part.len() == 2 {
        return pair_ends(times, links, part[0], part[1]);
    }
    long_ends(part, times).unwrap_or(Ends { top: 0, bottom: 0 })
}

// Why l is taken out of the part: by the first rule of figure 5 if it holds another literal, else by the second, among `rest`. Of a literal that is taken out one of the two finds another.
fn literal_ends(part: &[i32], rest: &[i32], times: &[u32], l: i32) -> Ends
    requires { Timed times.now part.now × Timed times.now rest.now × Literal 1024 l }
    ensures { (links : List ℤ) → result ≡ ends_in (columns times.now links) part.now rest.now l }
{
    match first_held(part, times, l) {
        Some(held) => Ends {
            top: l,
            bottom: held,
        },
        None => {
            let holder = first_holder(rest, times, l).unwrap_or(0);
            Ends {
                top: -holder,
                bottom: -l,
            }
        }
    }
}

// ---- the ends of all chains, in a slice

// What the first rule of figure 5 leaves of the part: it is put in front of `rest`, which is as long; returns how many.
fn keep_first(part: &[i32], times: &[u32], rest: &mut [i32]) -> usize
    requires { Timed times.now part.now × (length rest.old ≡ length part.now) }
    ensures { (result ≤ length part.now) × ((links : List ℤ) → take result rest.new ≡ unhidden slot_of (holds (columns times.now links)) part.now) }
{
    let mut n = 0;
    for &l in part {
        if first_held(part, times, l).is_none() {
            rest[n] = l;
            n += 1;
        }
    }
    n
}

// Whether l stands at place j.
fn begins(left: &[i32], j: usize, l: i32) -> bool
    ensures { result ≡ begins l (drop j left.now) }
{
    left.get(j) == Some(&l)
}

fn put_ends(ends: &mut [i32], k: usize, e: Ends)
    requires { (k < 1024) × (length ends.old ≡ 2048) }
    ensures { ends.new ≡ set (set ends.old (2 * k) e.top) (2 * k + 1) e.bottom }
{
    ends[2 * k] = e.top;
    ends[2 * k + 1] = e.bottom;
}

// The ends for each literal of the part that is not in `left`, in order; returns how many.
fn gather_ends(part: &[i32], left: &[i32], rest: &[i32], times: &[u32], ends: &mut [i32]) -> usize
    requires { Timed times.now part.now × Timed times.now rest.now × (length part.now ≤ 1024) × (length ends.old ≡ 2048) }
    ensures { (links : List ℤ) → Listed (map (ends_in (columns times.now links) part.now rest.now) (left_out part.now left.now)) result ends.new }
{
    let mut n = 0;
    let mut j = 0;
    for &l in part {
        if begins(left, j, l) {
            j += 1;
        } else {
            put_ends(ends, n, literal_ends(part, rest, times, l));
            n += 1;
        }
    }
    n
}

// ---- what a Sweep would do

// The verdict, how many literals are taken out, and how many chains show it.
#[derive(Clone, Copy)]
pub struct Found {
    pub verdict: Verdict,
    pub out: u32,
    pub chains: usize,
}

fn nothing() -> Found
    ensures { (xs : List ℤ) → Says result xs (reasons Nothing 0 []) }
{
    Found {
        verdict: Verdict::Nothing,
        out: 0,
        chains: 0,
    }
}

// A visit of Sweep to a copy of the part, in `row`, which is as long: the clause itself is only read.
fn judge(part: &[i32], times: &[u32], links: &[i32], row: &mut [i32]) -> Visited
    requires { Clause times.now links.now part.now × (length row.old ≡ length part.now) }
    ensures { part_of result row.new ≡ part_after (sweep_clause (columns times.now links.now) part.now) part.now }
{
    let n = part.len();
    let mut slots = [0u32; 1024];
    let mut twins = [0u32; 1024];
    row.copy_from_slice(part);
    sweep_visits::visit_part(row, times, links, &mut slots[..n], &mut twins[..n])
}

// A clause that is dropped.
fn find_drop(part: &[i32], times: &[u32], links: &[i32], ends: &mut [i32]) -> Found
    requires { Clause times.now links.now part.now × (length ends.old ≡ 2048) }
    ensures { Says result ends.new (reasons Drop 0 (drop_ends (columns times.now links.now) part.now ∷ [])) }
{
    put_ends(ends, 0, drop_ends(part, times, links));
    Found {
        verdict: Verdict::Drop,
        out: 0,
        chains: 1,
    }
}

// A clause of which `left` stays. Where nothing is taken out nothing is searched.
fn find_out(part: &[i32], left: &[i32], times: &[u32], ends: &mut [i32]) -> Found
    requires { Timed times.now part.now × (length part.now ≤ 1024) × (length ends.old ≡ 2048) × LeftOf part.now left.now }
    ensures { (links : List ℤ) → Says result ends.new (taken_out (columns times.now links) part.now (left_out part.now left.now)) }
{
    let n = part.len();
    if left.len() == n {
        return nothing();
    }
    let mut rest = [0i32; 1024];
    let m = keep_first(part, times, &mut rest[..n]);
    let chains = gather_ends(part, left, &rest[..m], times, ends);
    Found {
        verdict: Verdict::Shorten,
        out: chains as u32,
        chains,
    }
}

// What a visit of Sweep would do to a clause, with the ends of the chains in `ends`.
fn find(part: &[i32], times: &[u32], links: &[i32], ends: &mut [i32]) -> Found
    requires { Clause times.now links.now part.now × (length ends.old ≡ 2048) }
    ensures { Says result ends.new (reasons_of (columns times.now links.now) part.now) }
{
    let n = part.len();
    let mut row = [0i32; 1024];
    match judge(part, times, links, &mut row[..n]) {
        Visited::Kept => nothing(),
        Visited::Left(m) => find_out(part, &row[..m as usize], times, ends),
        _ => find_drop(part, times, links, ends),
    }
}

// ---- the call

// The chains into the output, or refusal 10 with the length needed. They are measured first, on an empty part of the output, so that a refused call stores nothing.
fn write_chains(
    links: &[i32],
    ends: &[i32],
    found: Found,
    out: &mut [u8],
) -> Result<Answer, Refusal>
    requires { Chained links.now ends.now found.chains }
    ensures { (why : Reasons) → Says found ends.now why → after_write result out.new ≡ explain_into links.now why out.old }
{
    let needed = chains::put_chains(&mut out[..0], links, ends, found.chains);
    if out.len() < needed {
        return Err(Refusal::Short(needed));
    }
    let written = chains::put_chains(out, links, ends, found.chains);
    Ok(Answer::Explained(found.verdict, found.out, written))
}

fn explain_part(
    part: &[i32],
    times: &[u32],
    links: &[i32],
    out: &mut [u8],
) -> Result<Answer, Refusal>
    requires { Clause times.now links.now part.now }
    ensures { after_write result out.new ≡ explain_literals times.now links.now part.now out.old }
{
    let mut ends = [0i32; 2048];
    let found = find(part, times, links, &mut ends);
    write_chains(links, &ends, found, out)
}

// Whether a clause of this number stands.
fn stands(clauses: &[u32], n: u32, number: u32) -> bool
    requires { (n ≤ 4096) × (3 * n ≤ length clauses.now) }
    ensures { result ≡ stands number n clauses.now }
{
    number != 0 && number <= n && clauses[3 * number as usize - 1] != 0
}

// A call that refusals 1, 4 and 5 let pass.
fn unless_stale(
    clauses: &[u32],
    literals: &[i32],
    times: &[u32],
    links: &[i32],
    st: State,
    number: u32,
    out: &mut [u8],
) -> Result<Answer, Refusal>
    requires { Ready clauses.now literals.now times.now links.now st }
    ensures { (variables : List ℤ) → after_write result out.new ≡ explain_unless_stale st.fresh number (lent clauses.now literals.now variables times.now links.now) st out.old }
{
    if !st.fresh {
        return Err(Refusal::Stale);
    }
    if !stands(clauses, st.n, number) {
        return Err(Refusal::NoClause);
    }
    let k = number as usize - 1;
    let start = visits::part_start(clauses, k);
    let end = visits::part_end(clauses, k);
    explain_part(&literals[start..end], times, links, out)
}

// The exported call: why a Sweep would drop the clause of this number, or take literals out of it.
pub fn explain(
    clauses: &[u32],
    literals: &[i32],
    variables: &[i32],
    times: &[u32],
    links: &[i32],
    st: State,
    number: u32,
    out: &mut [u8],
) -> Result<Answer, Refusal>
    ensures { after_write result out.new ≡ explain_call number (lent clauses.now literals.now variables.now times.now links.now) st out.old }
{
    entry::may_open(clauses, literals, variables, times, links, st)?;
    unless_stale(clauses, literals, times, links, st, number, out)
}
