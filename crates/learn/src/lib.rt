// The call of a learnt clause (document 02, CR 1): judged by Sweep's rule against fresh stamps, then kept in the window or dropped. It opens no pass, and changes neither tables nor state.
#![tactic(auto)]

ghost use Rattle.std.specs.Prelude.{◌≡◌, List, ℕ, ◌≤◌, length, replicate, ℤ, pos};
ghost use Rattle.stamp_columns.specs.Columns.{columns};
ghost use Rattle.hidden_tautologies.specs.Judged.{Judged};
ghost use Rattle.tables.specs.Tables.{Tables};
ghost use Rattle.tables.specs.Lent.{lent, returned};
ghost use Rattle.tables.specs.Fates.{Fate};
ghost use Rattle.visits.specs.Visited.{visited_as};
ghost use Rattle.sweep_visits.specs.Clause.{sweep_clause};
ghost use Rattle.window.specs.Window.{places, record_of, refuse_with, after_with};
ghost use Rattle.window.specs.Rule.{Ruled};
ghost use Rattle.learn.specs.Learn.{remains, kept_as, kept_with, learn_by, learn_unless_stale, learn_call};
ghost use Rattle.learn.specs.Ready.{Ready, FewLeft};

use state::{Answer, Outcome, Refusal, State};
use visits::Visited;
use window::{Window, Windowed};

// A refusal leaves the state and the window as they are.
fn refused(refusal: Refusal, st: State, window: Window) -> Windowed
    ensures { (t : Tables) (sizes : List ℕ) (learnt : List ℤ) → after_with result t sizes learnt ≡ refuse_with refusal t st (places sizes learnt window) }
{
    Windowed {
        outcome: Outcome {
            answer: Err(refusal),
            state: st,
        },
        window,
    }
}

// Sweep's rule on a newcomer. What it leaves is put into `row`, whose 64 places are 0.
fn judge(newcomer: &[i32], times: &[u32], links: &[i32], row: &mut [i32]) -> Visited
    requires { Judged times.now links.now newcomer.now × (length newcomer.now ≤ 64) × (row.old ≡ replicate 64 (pos 0)) }
    ensures { (result ≡ visited_as (sweep_clause (columns times.now links.now) newcomer.now))
        × (row.new ≡ record_of (remains (sweep_clause (columns times.now links.now) newcomer.now) newcomer.now)) }
{
    let n = newcomer.len();
    let mut slots = [0u32; 64];
    let mut twins = [0u32; 64];
    row[..n].copy_from_slice(newcomer);
    sweep_visits::visit_part(
        &mut row[..n],
        times,
        links,
        &mut slots[..n],
        &mut twins[..n],
    )
}

// What is answered of a newcomer of `before` literals of which `left` are left.
fn kept_as(before: u32, left: u32) -> Answer
    ensures { result ≡ kept_as before left }
{
    if left == before {
        return Answer::KeptWhole(left);
    }
    Answer::KeptShort(left)
}

// A record of `left` literals goes into the window.
fn keep_record(
    sizes: &mut [u32],
    learnt: &mut [i32],
    window: Window,
    row: &[i32],
    before: u32,
    left: u32,
    st: State,
) -> Windowed
    requires { Ruled (places sizes.old learnt.old window) × (length row.now ≡ 64) × (left ≤ 64) }
    ensures { (t : Tables) (D : List ℤ) → row.now ≡ record_of D → left ≡ length D
        → after_with result t sizes.new learnt.new ≡ kept_with before D t st (places sizes.old learnt.old window) }
{
    let kept = window::keep(sizes, learnt, window, row, left);
    Windowed {
        outcome: Outcome {
            answer: Ok(kept_as(before, left)),
            state: st,
        },
        window: kept,
    }
}

// What the rule has left of a newcomer of `before` literals goes into the window, unless the newcomer is dropped.
fn keep_left(
    sizes: &mut [u32],
    learnt: &mut [i32],
    window: Window,
    row: &[i32],
    before: u32,
    seen: Visited,
    st: State,
) -> Windowed
    requires { Ruled (places sizes.old learnt.old window) × (length row.now ≡ 64) × (before ≤ 64) × FewLeft seen }
    ensures { (t : Tables) (f : Fate) (C : List ℤ) → before ≡ length C → seen ≡ visited_as f → row.now ≡ record_of (remains f C)
        → after_with result t sizes.new learnt.new ≡ learn_by f C t st (places sizes.old learnt.old window) }
{
    match seen {
        Visited::Kept => keep_record(sizes, learnt, window, row, before, before, st),
        Visited::Left(n) => keep_record(sizes, learnt, window, row, before, n, st),
        _ => Windowed {
            outcome: Outcome {
                answer: Ok(Answer::NotKept),
                state: st,
            },
            window,
        },
    }
}

// A newcomer that no refusal stops.
fn learn_judged(
    times: &[u32],
    links: &[i32],
    st: State,
    newcomer: &[i32],
    sizes: &mut [u32],
    learnt: &mut [i32],
    window: Window,
) -> Windowed
    requires { Judged times.now links.now newcomer.now × (length newcomer.now ≤ 64) × Ruled (places sizes.old learnt.old window) }
    ensures { (t : Tables) → after_with result t sizes.new learnt.new
        ≡ learn_by (sweep_clause (columns times.now links.now) newcomer.now) newcomer.now t st (places sizes.old learnt.old window) }
{
    let mut row = [0i32; 64];
    let seen = judge(newcomer, times, links, &mut row);
    let before = newcomer.len() as u32;
    keep_left(sizes, learnt, window, &row, before, seen, st)
}

// A newcomer that no refusal above 9 stops.
fn learn_entered(
    variables: &[i32],
    times: &[u32],
    links: &[i32],
    st: State,
    newcomer: &[i32],
    sizes: &mut [u32],
    learnt: &mut [i32],
    window: Window,
) -> Windowed
    requires { Ready variables.now times.now links.now st × Ruled (places sizes.old learnt.old window) }
    ensures { (clauses : List ℕ) (literals : List ℤ) → after_with result (returned clauses literals variables.now times.now links.now) sizes.new learnt.new
        ≡ learn_unless_stale st.fresh newcomer.now (lent clauses literals variables.now times.now links.now) st (places sizes.old learnt.old window) }
{
    if !st.fresh {
        return refused(Refusal::Stale, st, window);
    }
    if !window::newcomer_ok(newcomer, variables, st.v) {
        return refused(Refusal::Newcomer, st, window);
    }
    learn_judged(times, links, st, newcomer, sizes, learnt, window)
}

// The exported call.
pub fn learn(
    clauses: &[u32],
    literals: &[i32],
    variables: &[i32],
    times: &[u32],
    links: &[i32],
    st: State,
    newcomer: &[i32],
    sizes: &mut [u32],
    learnt: &mut [i32],
    window: Window,
) -> Windowed
    ensures { after_with result (returned clauses.now literals.now variables.now times.now links.now) sizes.new learnt.new
        ≡ learn_call newcomer.now (lent clauses.now literals.now variables.now times.now links.now) st (places sizes.old learnt.old window) }
{
    if !shape::shape_ok(clauses, literals, variables, times, links, st) {
        return refused(Refusal::Shape, st, window);
    }
    if !window::window_ok(sizes, learnt, window, variables, st.v) {
        return refused(Refusal::Shape, st, window);
    }
    match entry::opening_by(st.pass, st.mark) {
        Err(refusal) => refused(refusal, st, window),
        Ok(()) => learn_entered(variables, times, links, st, newcomer, sizes, learnt, window),
    }
}
