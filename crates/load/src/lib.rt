// A load, of a text or of two that are joined: the formula is judged as a whole, each token being read once and kept as a number, and only
// then are its clauses laid in the tables, so that a refused load changes nothing. A clause is collected as it is written, and then its repeats are removed. The time is
// linear in the texts.
#![tactic(auto)]

ghost use Rattle.std.specs.Prelude.{◌≡◌, List, ℕ, ◌+◌, ◌*◌, ◌≤◌, length, drop, ℤ, pos};
ghost use Rattle.std.proofs.lemmas.List.Edits.{sets};
ghost use Rattle.literal.specs.Clauses.{distinct};
ghost use Rattle.literal.specs.Holding.{holding};
ghost use Rattle.repeats.specs.Marks.{no_marks};
ghost use Rattle.dimacs.specs.Numbers.{first_clause, clauses_in, clauses_kept, Judged};
ghost use Rattle.state.specs.declared.State.{State};
ghost use Rattle.tables.specs.Tables.{Tables};
ghost use Rattle.tables.specs.Lent.{lent, returned};
ghost use Rattle.tables.specs.Calls.{after};
ghost use Rattle.window.specs.Window.{places, after_with};
ghost use Rattle.window.specs.Rule.{LongWindow};
ghost use Rattle.load.specs.Load.{variable_records, filled, accept, load_by, load_formula, load_call, emptying, with_window, load_with, join_with};
ghost use Rattle.load.specs.Laid.{written, kept_size, flag, put_clause_record, next_clause, cleared, Collectable, ClauseEnd, Layable, LayableBy, either_verdict, either_clauses, LaidBy};

use dimacs::Header;
use state::{Answer, Outcome, Refusal, State};
use window::{Window, Windowed};

// A clause that was laid: how many literals it has as written, how many of them are kept, and whether it has v and -v.
#[derive(Clone, Copy)]
struct Written {
    size: usize,
    kept: usize,
    both: bool,
}

// What is laid so far: the number of clauses, where the literals of the next clause start, where its numbers begin, and whether
// one of the laid clauses is empty.
#[derive(Clone, Copy)]
struct Progress {
    clauses: usize,
    start: usize,
    at: usize,
    mark: bool,
}

// What is loaded: a text, or two that are joined by the links in `pairs`, two numbers for each, a left variable and a right one.
#[derive(Clone, Copy)]
enum Source<'a> {
    Text(&'a [u8]),
    Joined {
        left: &'a [u8],
        right: &'a [u8],
        pairs: &'a [u32],
    },
}

// Copies the clause whose numbers begin at `at` into the literal table from `start` on, as it is written. Where it ends there.
fn collect(numbers: &[i32], at: usize, literals: &mut [i32], start: usize) -> usize
    requires { Collectable numbers.now at start (length literals.old) }
    ensures { (result ≡ start + length (first_clause (drop at numbers.now))) × (literals.new ≡ sets literals.old start (first_clause (drop at numbers.now))) }
{
    // behind the last number there is nothing to copy
    let from = at.min(numbers.len());
    let mut end = start;
    for &l in &numbers[from..] {
        if l == 0 {
            break;
        }
        literals[end] = l;
        end += 1;
    }
    end
}

// The literals of the clause whose numbers begin at `at`: collected from `start` on, then without repeats.
fn lay_literals(
    numbers: &[i32],
    at: usize,
    literals: &mut [i32],
    start: usize,
    marks: &mut [u32],
) -> Written
    requires { Collectable numbers.now at start (length literals.old) × (marks.old ≡ no_marks) }
    ensures { (result ≡ written (first_clause (drop at numbers.now)))
        × ((literals.new ≡ sets literals.old start (holding (distinct (first_clause (drop at numbers.now))) (first_clause (drop at numbers.now))))
        × (marks.new ≡ marks.old)) }
{
    let end = collect(numbers, at, literals, start);
    let kept = repeats::remove_repeats(&mut literals[start..end], marks);
    Written {
        size: end - start,
        kept: kept.count,
        both: kept.both,
    }
}

// How many places a clause takes: a dropped clause takes none.
fn kept_size(c: Written) -> usize
    ensures { result ≡ kept_size c }
{
    if c.both { 0 } else { c.kept }
}

fn standing_flag(dropped: bool) -> u32
    ensures { result ≡ flag dropped }
{
    u32::from(!dropped)
}

// The record of clause k, counted from 0.
fn put_record(clauses: &mut [u32], k: usize, start: u32, size: u32, standing: u32)
    requires { 3 * k + 3 ≤ length clauses.old }
    ensures { clauses.new ≡ put_clause_record clauses.old k start size standing }
{
    let i = 3 * k;
    clauses[i] = start;
    clauses[i + 1] = size;
    clauses[i + 2] = standing;
}

// A clause's literals are laid: its record follows, and the next clause starts behind it. A clause that is written empty sets the mark.
fn end_clause(clauses: &mut [u32], p: Progress, c: Written) -> Progress
    requires { ClauseEnd (length clauses.old) p c }
    ensures { (result ≡ next_clause p c) × (clauses.new ≡ put_clause_record clauses.old p.clauses p.start (kept_size c) (flag c.both)) }
{
    let size = kept_size(c);
    put_record(
        clauses,
        p.clauses,
        p.start as u32,
        size as u32,
        standing_flag(c.both),
    );
    Progress {
        clauses: p.clauses + 1,
        start: p.start + size,
        at: p.at + c.size + 1,
        mark: p.mark || c.size == 0,
    }
}

// The n clauses in the numbers of a text that was judged to fit. No mark is set between two clauses.
fn lay_clauses(
    numbers: &[i32],
    n: usize,
    clauses: &mut [u32],
    literals: &mut [i32],
    marks: &mut [u32],
) -> Progress
    requires { Layable n numbers.now (length clauses.old) (length literals.old) × (marks.old ≡ no_marks) }
    ensures { LaidBy (clauses_in n numbers.now) clauses.old literals.old clauses.new literals.new result }
{
    let mut p = Progress {
        clauses: 0,
        start: 0,
        at: 0,
        mark: false,
    };
    for _k in 0..n {
        let c = lay_literals(numbers, p.at, literals, p.start, marks);
        p = end_clause(clauses, p, c);
    }
    p
}

// Each variable its own class, with no value; zeros behind.
fn lay_variables(variables: &mut [i32], v: u32)
    requires { (v ≤ 1024) × (2048 ≤ length variables.old) }
    ensures { variables.new ≡ filled (pos 0) 2048 (variable_records 1 v) variables.old }
{
    let n = v as usize;
    for i in 0..n {
        let class = (i + 1) as i32;
        variables[2 * i] = class;
        variables[2 * i + 1] = 0;
    }
    variables[2 * n..2048].fill(0);
}

// The tables of the n clauses in the numbers, and the state that goes with them.
fn lay(
    numbers: &[i32],
    v: u32,
    n: u32,
    clauses: &mut [u32],
    literals: &mut [i32],
    variables: &mut [i32],
    st: State,
) -> Outcome
    requires { (v ≤ 1024) × (Layable n numbers.now (length clauses.old) (length literals.old) × (2048 ≤ length variables.old)) }
    ensures { (times : List ℕ) (links : List ℤ) → after result (returned clauses.new literals.new variables.new times links)
        ≡ accept v n (clauses_in n numbers.now) (lent clauses.old literals.old variables.old times links) }
{
    let mut marks = [0u32; 2049];
    let p = lay_clauses(numbers, n as usize, clauses, literals, &mut marks);
    clauses[3 * p.clauses..12288].fill(0);
    literals[p.start..16384].fill(0);
    lay_variables(variables, v);
    Outcome {
        answer: Ok(Answer::Loaded),
        state: st.loaded(v, n, p.mark),
    }
}

// A formula that was judged, by the numbers that were kept of it, into tables that are long enough; or its refusal, which changes nothing.
fn lay_judged(
    verdict: Result<Header, Refusal>,
    numbers: &[i32],
    clauses: &mut [u32],
    literals: &mut [i32],
    variables: &mut [i32],
    st: State,
) -> Outcome
    requires { LayableBy verdict numbers.now (length clauses.old) (length literals.old) × (2048 ≤ length variables.old) }
    ensures { (times : List ℕ) (links : List ℤ) → after result (returned clauses.new literals.new variables.new times links)
        ≡ load_by verdict (clauses_kept verdict numbers.now) (lent clauses.old literals.old variables.old times links) st }
{
    match verdict {
        Err(r) => Outcome {
            answer: Err(r),
            state: st,
        },
        Ok(h) => lay(numbers, h.v, h.n, clauses, literals, variables, st),
    }
}

// The judgement of the text, or of the join of both, and the clauses of a formula that fits in `numbers`.
fn judge(source: Source<'_>, numbers: &mut [i32]) -> Result<Header, Refusal>
    requires { 20480 ≤ length numbers.old }
    ensures { Judged (either_verdict source.entry) (either_clauses source.entry) result numbers.new }
{
    match source {
        Source::Text(text) => dimacs::judge_text(text, numbers),
        Source::Joined { left, right, pairs } => join::judge_join(left, right, pairs, numbers),
    }
}

// A load of the text, or of the join of both, or a refusal, which changes nothing. The stamp records (`times`, `links`) stay in
// both cases: here only their lengths are tested. The calls go through this one function: it is large and has two callers, so that the
// compiler keeps it apart, and its array is not on the stack beneath a run behind a load.
fn load_formula(
    source: Source<'_>,
    clauses: &mut [u32],
    literals: &mut [i32],
    variables: &mut [i32],
    times: &[u32],
    links: &[i32],
    st: State,
) -> Outcome
    ensures { after result (returned clauses.new literals.new variables.new times.now links.now)
        ≡ load_formula (either_verdict source.entry) (either_clauses source.entry) (lent clauses.old literals.old variables.old times.now links.now) st }
{
    if !tables::long_ok(clauses, literals, variables, times, links) {
        return Outcome {
            answer: Err(Refusal::Shape),
            state: st,
        };
    }
    // a formula that fits has at most 16,384 literals and 4,096 clause ends
    let mut numbers = [0i32; 20480];
    let verdict = judge(source, &mut numbers);
    lay_judged(verdict, &numbers, clauses, literals, variables, st)
}

// Loads a text into the tables: the call `load` without the window.
pub fn load_tables(
    text: &[u8],
    clauses: &mut [u32],
    literals: &mut [i32],
    variables: &mut [i32],
    times: &[u32],
    links: &[i32],
    st: State,
) -> Outcome
    ensures { after result (returned clauses.new literals.new variables.new times.now links.now)
        ≡ load_call text.now (lent clauses.old literals.old variables.old times.now links.now) st }
{
    load_formula(
        Source::Text(text),
        clauses,
        literals,
        variables,
        times,
        links,
        st,
    )
}

// What a call on the tables that was accepted does to a window that is long enough: it empties it, whatever it holds.
fn empty_window(outcome: Outcome, sizes: &mut [u32], learnt: &mut [i32], window: Window) -> Windowed
    requires { LongWindow (places sizes.old learnt.old window) }
    ensures { (t : Tables) → after_with result t sizes.new learnt.new ≡ emptying (after outcome t) (places sizes.old learnt.old window) }
{
    if outcome.answer.is_err() {
        return Windowed { outcome, window };
    }
    sizes[..64].fill(0);
    learnt[..4096].fill(0);
    Windowed {
        outcome,
        window: Window::empty(),
    }
}

// The formula into the tables, and a window that is long enough emptied, whatever it holds; or neither.
fn load_with(
    source: Source<'_>,
    clauses: &mut [u32],
    literals: &mut [i32],
    variables: &mut [i32],
    times: &[u32],
    links: &[i32],
    st: State,
    sizes: &mut [u32],
    learnt: &mut [i32],
    window: Window,
) -> Windowed
    ensures { after_with result (returned clauses.new literals.new variables.new times.now links.now) sizes.new learnt.new
        ≡ with_window (load_formula (either_verdict source.entry) (either_clauses source.entry) (lent clauses.old literals.old variables.old times.now links.now) st)
        (lent clauses.old literals.old variables.old times.now links.now) st (places sizes.old learnt.old window) }
{
    if !window::long_ok(sizes, learnt) {
        return Windowed {
            outcome: Outcome {
                answer: Err(Refusal::Shape),
                state: st,
            },
            window,
        };
    }
    let outcome = load_formula(source, clauses, literals, variables, times, links, st);
    empty_window(outcome, sizes, learnt, window)
}

// The exported call: a text is loaded.
pub fn load(
    text: &[u8],
    clauses: &mut [u32],
    literals: &mut [i32],
    variables: &mut [i32],
    times: &[u32],
    links: &[i32],
    st: State,
    sizes: &mut [u32],
    learnt: &mut [i32],
    window: Window,
) -> Windowed
    ensures { after_with result (returned clauses.new literals.new variables.new times.now links.now) sizes.new learnt.new
        ≡ load_with text.now (lent clauses.old literals.old variables.old times.now links.now) st (places sizes.old learnt.old window) }
{
    load_with(
        Source::Text(text),
        clauses,
        literals,
        variables,
        times,
        links,
        st,
        sizes,
        learnt,
        window,
    )
}

// The exported call: two texts are joined by the links in `pairs`, two numbers for each, a left variable and a right one.
pub fn join(
    left: &[u8],
    right: &[u8],
    pairs: &[u32],
    clauses: &mut [u32],
    literals: &mut [i32],
    variables: &mut [i32],
    times: &[u32],
    links: &[i32],
    st: State,
    sizes: &mut [u32],
    learnt: &mut [i32],
    window: Window,
) -> Windowed
    ensures { after_with result (returned clauses.new literals.new variables.new times.now links.now) sizes.new learnt.new
        ≡ join_with left.now right.now pairs.now (lent clauses.old literals.old variables.old times.now links.now) st (places sizes.old learnt.old window) }
{
    load_with(
        Source::Joined { left, right, pairs },
        clauses,
        literals,
        variables,
        times,
        links,
        st,
        sizes,
        learnt,
        window,
    )
}
