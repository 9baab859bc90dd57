// The calls for C. Each function lends the call of the same name to crate c_numbers, which reads the state from its numbers, makes the call, and puts the state and the answer into theirs; unhide_learn, which leaves the state, takes these steps itself; the last two have no state.
#![tactic(auto)]

ghost use Rattle.std.specs.Prelude.{◌≡◌};
ghost use Rattle.tables.specs.Lent.{lent, returned};
ghost use Rattle.load.specs.Load.{load_with, join_with};
ghost use Rattle.learn.specs.Learn.{learn_call};
ghost use Rattle.propagate.specs.Propagate.{propagate_call};
ghost use Rattle.merge.specs.Merge.{merge_call};
ghost use Rattle.stamp.specs.Stamp.{stamp_call};
ghost use Rattle.failed.specs.Failed.{failed_call};
ghost use Rattle.sweep.specs.Sweep.{sweep_call};
ghost use Rattle.run.specs.Run.{run_call};
ghost use Rattle.set_programme.specs.SetProgramme.{set_call};
ghost use Rattle.write.specs.Write.{write_call};
ghost use Rattle.explain.specs.Explain.{explain_call};
ghost use Rattle.compare.specs.Compare.{compare_call, comparison_result};
ghost use Rattle.simplify.specs.Texts.{simplify_text, result_of};
ghost use Rattle.c_numbers.specs.CCalls.{after_c, call_c, after_write_c, text_c};
ghost use Rattle.c_numbers.specs.WindowCalls.{after_load_c, load_c, after_learn_c, learn_c};

use state::State;
use window::Window;

// ---- the calls

// A text is read into the tables, and the window is emptied. The state before it counts for nothing but must be readable, as forty zeros are.
#[unsafe(no_mangle)]
pub extern "C" fn unhide_load(
    text: &[u8],
    clauses: &mut [u32],
    literals: &mut [i32],
    variables: &mut [i32],
    times: &[u32],
    links: &[i32],
    state: &mut [u32],
    answer: &mut [u64],
    sizes: &mut [u32],
    learnt: &mut [i32],
    window: &mut [u32],
) -> i64
    ensures { after_load_c (after_c result answer.new state.new (returned clauses.new literals.new variables.new times.now links.now)) sizes.new learnt.new window.new
        ≡ load_c (load_with text.now) (lent clauses.old literals.old variables.old times.now links.now) state.old answer.old sizes.old learnt.old window.old }
{
    let mut make = |st: State, w: Window| load::load(
        text, clauses, literals, variables, times, links, st, sizes, learnt, w,
    );
    c_numbers::call_with(state, answer, window, &mut make)
}

// Two texts are joined into the tables by the pairs of a link table, and the window is emptied; else as a load.
#[unsafe(no_mangle)]
pub extern "C" fn unhide_join(
    left: &[u8],
    right: &[u8],
    pairs: &[u32],
    clauses: &mut [u32],
    literals: &mut [i32],
    variables: &mut [i32],
    times: &[u32],
    links: &[i32],
    state: &mut [u32],
    answer: &mut [u64],
    sizes: &mut [u32],
    learnt: &mut [i32],
    window: &mut [u32],
) -> i64
    ensures { after_load_c (after_c result answer.new state.new (returned clauses.new literals.new variables.new times.now links.now)) sizes.new learnt.new window.new
        ≡ load_c (join_with left.now right.now pairs.now) (lent clauses.old literals.old variables.old times.now links.now) state.old answer.old sizes.old learnt.old window.old }
{
    let mut make = |st: State, w: Window| load::join(
        left, right, pairs, clauses, literals, variables, times, links, st, sizes, learnt, w,
    );
    c_numbers::call_with(state, answer, window, &mut make)
}

// Unit propagation, n clauses at a time.
#[unsafe(no_mangle)]
pub extern "C" fn unhide_propagate(
    clauses: &mut [u32],
    literals: &mut [i32],
    variables: &mut [i32],
    times: &[u32],
    links: &[i32],
    state: &mut [u32],
    answer: &mut [u64],
    n: u16,
) -> i64
    ensures { after_c result answer.new state.new (returned clauses.new literals.new variables.new times.now links.now)
        ≡ call_c (propagate_call n) (lent clauses.old literals.old variables.old times.now links.now) state.old answer.old }
{
    let mut make = |st: State| propagate::propagate(
        clauses, literals, variables, times, links, st, n,
    );
    c_numbers::call(state, answer, &mut make)
}

// Equivalent literals become one, n clauses at a time.
#[unsafe(no_mangle)]
pub extern "C" fn unhide_merge(
    clauses: &mut [u32],
    literals: &mut [i32],
    variables: &mut [i32],
    times: &[u32],
    links: &[i32],
    state: &mut [u32],
    answer: &mut [u64],
    n: u16,
) -> i64
    ensures { after_c result answer.new state.new (returned clauses.new literals.new variables.new times.now links.now)
        ≡ call_c (merge_call n) (lent clauses.old literals.old variables.old times.now links.now) state.old answer.old }
{
    let mut make = |st: State| merge::merge(clauses, literals, variables, times, links, st, n);
    c_numbers::call(state, answer, &mut make)
}

// Time stamps of all literals, in the order given.
#[unsafe(no_mangle)]
pub extern "C" fn unhide_stamp(
    clauses: &[u32],
    literals: &[i32],
    variables: &[i32],
    times: &mut [u32],
    links: &mut [i32],
    state: &mut [u32],
    answer: &mut [u64],
    order: &[i32],
) -> i64
    ensures { after_c result answer.new state.new (returned clauses.now literals.now variables.now times.new links.new)
        ≡ call_c (stamp_call order.now) (lent clauses.now literals.now variables.now times.old links.old) state.old answer.old }
{
    let mut make = |st: State| stamp::stamp(clauses, literals, variables, times, links, st, order);
    c_numbers::call(state, answer, &mut make)
}

// The complements of failed literals are set.
#[unsafe(no_mangle)]
pub extern "C" fn unhide_failed(
    clauses: &[u32],
    literals: &[i32],
    variables: &mut [i32],
    times: &[u32],
    links: &[i32],
    state: &mut [u32],
    answer: &mut [u64],
) -> i64
    ensures { after_c result answer.new state.new (returned clauses.now literals.now variables.new times.now links.now)
        ≡ call_c failed_call (lent clauses.now literals.now variables.old times.now links.now) state.old answer.old }
{
    let mut make = |st: State| failed::failed(clauses, literals, variables, times, links, st);
    c_numbers::call(state, answer, &mut make)
}

// Hidden tautologies are dropped and hidden literals removed, n clauses at a time.
#[unsafe(no_mangle)]
pub extern "C" fn unhide_sweep(
    clauses: &mut [u32],
    literals: &mut [i32],
    variables: &[i32],
    times: &[u32],
    links: &[i32],
    state: &mut [u32],
    answer: &mut [u64],
    n: u16,
) -> i64
    ensures { after_c result answer.new state.new (returned clauses.new literals.new variables.now times.now links.now)
        ≡ call_c (sweep_call n) (lent clauses.old literals.old variables.now times.now links.now) state.old answer.old }
{
    let mut make = |st: State| sweep::sweep(clauses, literals, variables, times, links, st, n);
    c_numbers::call(state, answer, &mut make)
}

// A learnt clause is judged, and kept in the window or dropped.
#[unsafe(no_mangle)]
pub extern "C" fn unhide_learn(
    clauses: &[u32],
    literals: &[i32],
    variables: &[i32],
    times: &[u32],
    links: &[i32],
    state: &[u32],
    answer: &mut [u64],
    newcomer: &[i32],
    sizes: &mut [u32],
    learnt: &mut [i32],
    window: &mut [u32],
) -> i64
    ensures { after_learn_c result answer.new sizes.new learnt.new window.new
        ≡ learn_c (learn_call newcomer.now) (lent clauses.now literals.now variables.now times.now links.now) state.now answer.old sizes.old learnt.old window.old }
{
    if !c_numbers::ready_with(state, answer, window) {
        return c_numbers::refuse_unread(answer);
    }
    let st = c_numbers::state_at(state);
    let w = c_numbers::window_at(window);
    let made = learn::learn(
        clauses, literals, variables, times, links, st, newcomer, sizes, learnt, w,
    );
    let outcome = made.outcome;
    let a = outcome.answer;
    c_numbers::finish_window(window, a, made.window);
    c_numbers::put_answer(answer, a)
}

// Rounds of all passes.
#[unsafe(no_mangle)]
pub extern "C" fn unhide_run(
    clauses: &mut [u32],
    literals: &mut [i32],
    variables: &mut [i32],
    times: &mut [u32],
    links: &mut [i32],
    state: &mut [u32],
    answer: &mut [u64],
    count: u16,
) -> i64
    ensures { after_c result answer.new state.new (returned clauses.new literals.new variables.new times.new links.new)
        ≡ call_c (run_call count) (lent clauses.old literals.old variables.old times.old links.old) state.old answer.old }
{
    let mut make = |st: State| run::run(clauses, literals, variables, times, links, st, count);
    c_numbers::call(state, answer, &mut make)
}

// The programme that Run follows is replaced.
#[unsafe(no_mangle)]
pub extern "C" fn unhide_set_programme(
    clauses: &[u32],
    literals: &[i32],
    variables: &[i32],
    times: &[u32],
    links: &[i32],
    state: &mut [u32],
    answer: &mut [u64],
    codes: &[u32],
) -> i64
    ensures { after_c result answer.new state.new (returned clauses.now literals.now variables.now times.now links.now)
        ≡ call_c (set_call codes.now) (lent clauses.now literals.now variables.now times.now links.now) state.old answer.old }
{
    let mut make = |st: State| set_programme::set_programme(
        clauses, literals, variables, times, links, st, codes,
    );
    c_numbers::call(state, answer, &mut make)
}

// What stands, written as text.
#[unsafe(no_mangle)]
pub extern "C" fn unhide_write(
    clauses: &[u32],
    literals: &[i32],
    variables: &[i32],
    times: &[u32],
    links: &[i32],
    state: &[u32],
    answer: &mut [u64],
    out: &mut [u8],
) -> i64
    ensures { after_write_c result answer.new out.new
        ≡ text_c write_call (lent clauses.now literals.now variables.now times.now links.now) state.now answer.old out.old }
{
    let mut make = |st: State| write::write(clauses, literals, variables, times, links, st, out);
    c_numbers::call_text(state, answer, &mut make)
}

// What a Sweep would do to the clause of this number, with the chains that show it written as text.
#[unsafe(no_mangle)]
pub extern "C" fn unhide_explain(
    clauses: &[u32],
    literals: &[i32],
    variables: &[i32],
    times: &[u32],
    links: &[i32],
    state: &[u32],
    answer: &mut [u64],
    number: u32,
    out: &mut [u8],
) -> i64
    ensures { after_write_c result answer.new out.new
        ≡ text_c (explain_call number) (lent clauses.now literals.now variables.now times.now links.now) state.now answer.old out.old }
{
    let mut make = |st: State| explain::explain(
        clauses, literals, variables, times, links, st, number, out,
    );
    c_numbers::call_text(state, answer, &mut make)
}

// How the intervals of two literals of so many variables lie, by the times as they stand. The viewer asks between any two calls: no state is read, and nothing changes.
#[unsafe(no_mangle)]
pub extern "C" fn unhide_compare(times: &[u32], variables: u32, p: i32, q: i32) -> i64
    ensures value { result ≡ comparison_result (compare_call times.now variables p q) }
    ensures times_value { times.now ≡ times.now }
{
    let comparison = compare::compare(times, variables, p, q);
    compare::result(comparison)
}

// Load, run and write in one call, on tables of its own: text, round count and output; the length written or the refusal's number, negative.
#[unsafe(no_mangle)]
pub extern "C" fn unhide_text(text: &[u8], rounds: u16, out: &mut [u8]) -> i64
    ensures value { result ≡ result_of (simplify_text text.now rounds out.old).reply }
    ensures out_after { out.new ≡ (simplify_text text.now rounds out.old).out }
{
    match simplify::simplify_text(text, rounds, out) {
        Ok(answer) => state::result(0, answer.value()),
        Err(refusal) => state::result(refusal.number(), 0),
    }
}
