// The state and the answer as numbers, for C, which has no type for either: it lends forty numbers for the one and four for the other, and two for the window.
#![tactic(auto)]

ghost use Rattle.std.specs.Prelude.{◌≡◌, ◌≤◌, [], ◌∷◌, length, Result, true, false};
ghost use Rattle.std.specs.Fn.{Takes, Called};
ghost use Rattle.state.specs.Answers.{reply_of, result_by};
ghost use Rattle.tables.specs.Tables.{Tables};
ghost use Rattle.tables.specs.Calls.{after};
ghost use Rattle.c_numbers.specs.StateNumbers.{put_front, digit, pass_number, cursor_number, changed_number, pass_of, pass_readable, programme_at, state_of, put_programme, put_state, readable};
ghost use Rattle.c_numbers.specs.CCalls.{ready, values_of, put_answer, refuse_unread, told, after_c};
ghost use Rattle.c_numbers.specs.WindowCalls.{window_at, put_window_by, ready_with};

use state::{Answer, Outcome, Pass, Programme, Refusal, State};
use window::{Window, Windowed};

// ---- the state's numbers

// Whether PASS, CURSOR and CHANGED are those of a pass. A cursor without a pass, or a change flag outside Propagate, is no state that a call leaves.
fn pass_readable(pass: u32, cursor: u32, changed: u32) -> bool
    ensures { result ≡ pass_readable pass cursor changed }
{
    match pass {
        0 => cursor == 0 && changed == 0,
        1 => changed <= 1,
        2 | 3 => changed == 0,
        _ => false,
    }
}

// Whether the numbers are a state's: V, N and those of the programme may be any, since the shape rule judges them.
fn readable(state: &[u32]) -> bool
    ensures { result ≡ readable state.now }
{
    state.len() >= 40
        && state[5] <= 1
        && state[6] <= 1
        && pass_readable(state[2], state[3], state[4])
}

// What a call asks of the numbers before it looks at anything else.
pub fn ready(state: &[u32], answer: &[u64]) -> bool
    ensures { result ≡ ready state.now answer.now }
{
    answer.len() >= 4 && readable(state)
}

// Of PASS, CURSOR and CHANGED that were found readable.
fn pass_of(pass: u32, cursor: u32, changed: u32) -> Pass
    ensures { result ≡ pass_of pass cursor changed }
{
    match pass {
        0 => Pass::Idle,
        1 => Pass::Propagate(cursor, changed == 1),
        2 => Pass::Merge(cursor),
        _ => Pass::Sweep(cursor),
    }
}

// Behind the seven numbers of document 01: the length and the 32 codes.
fn programme_at(state: &[u32]) -> Programme
    requires { 40 ≤ length state.now }
    ensures { result ≡ programme_at state.now }
{
    let mut codes = [0u32; 32];
    codes.copy_from_slice(&state[8..40]);
    Programme {
        codes,
        length: state[7],
    }
}

// The state that the first forty numbers are; `ready` has seen that they are there.
pub fn state_at(state: &[u32]) -> State
    requires { 40 ≤ length state.now }
    ensures { result ≡ state_of state.now }
{
    let pass = pass_of(state[2], state[3], state[4]);
    let programme = programme_at(state);
    State::of(
        state[0],
        state[1],
        pass,
        state[5] == 1,
        state[6] == 1,
        programme,
    )
}

fn digit(flag: bool) -> u32
    ensures { result ≡ digit flag }
{
    u32::from(flag)
}

fn pass_number(pass: Pass) -> u32
    ensures { result ≡ pass_number pass }
{
    match pass {
        Pass::Idle => 0,
        Pass::Propagate(_, _) => 1,
        Pass::Merge(_) => 2,
        Pass::Sweep(_) => 3,
    }
}

fn cursor_number(pass: Pass) -> u32
    ensures { result ≡ cursor_number pass }
{
    match pass {
        Pass::Idle => 0,
        Pass::Propagate(cursor, _) | Pass::Merge(cursor) | Pass::Sweep(cursor) => cursor,
    }
}

fn changed_number(pass: Pass) -> u32
    ensures { result ≡ changed_number pass }
{
    match pass {
        Pass::Propagate(_, changed) => digit(changed),
        Pass::Idle | Pass::Merge(_) | Pass::Sweep(_) => 0,
    }
}

fn put_programme(state: &mut [u32], programme: Programme)
    requires { 40 ≤ length state.old }
    ensures { state.new ≡ put_programme programme state.old }
{
    state[7] = programme.length;
    state[8..40].copy_from_slice(&programme.codes);
}

// Numbers behind the fortieth stay.
fn put_state(state: &mut [u32], st: State)
    requires { 40 ≤ length state.old }
    ensures { state.new ≡ put_state st state.old }
{
    put_programme(state, st.programme);
    let pass = st.pass;
    state[0] = st.v;
    state[1] = st.n;
    state[2] = pass_number(pass);
    state[3] = cursor_number(pass);
    state[4] = changed_number(pass);
    state[5] = digit(st.fresh);
    state[6] = digit(st.mark);
}

// ---- the answer

// Numbers behind the fourth stay.
fn put_four(answer: &mut [u64], first: u64, second: u64, third: u64, fourth: u64)
    requires { 4 ≤ length answer.old }
    ensures { answer.new ≡ put_front (first ∷ second ∷ third ∷ fourth ∷ []) answer.old }
{
    answer[0] = first;
    answer[1] = second;
    answer[2] = third;
    answer[3] = fourth;
}

// What a call that was made answers: three values of the resumable passes and of explain (the verdict, how many literals it takes out, the length), two of a learnt clause that is kept, one or none of the others. Open alone sets the fourth.
fn put_values(answer: &mut [u64], a: Answer)
    requires { 4 ≤ length answer.old }
    ensures { answer.new ≡ put_front (values_of (reply_of (Ok a))) answer.old }
{
    match a {
        Answer::Open(counts) => put_four(
            answer,
            counts.visits as u64,
            counts.clauses as u64,
            counts.literals as u64,
            1,
        ),
        Answer::Done(counts) => put_four(
            answer,
            counts.visits as u64,
            counts.clauses as u64,
            counts.literals as u64,
            0,
        ),
        Answer::KeptWhole(left) => put_four(answer, 0, left as u64, 0, 0),
        Answer::KeptShort(left) => put_four(answer, 2, left as u64, 0, 0),
        Answer::Explained(verdict, out, length) => {
            put_four(answer, verdict.number(), out as u64, length as u64, 0)
        }
        _ => put_four(answer, a.value(), 0, 0, 0),
    }
}

// What is returned: 0, or the refusal's number, negative. A refusal puts its place first, and the other three numbers stay. That the four are there, `ready` or `refuse_unread` has seen.
pub fn put_answer(answer: &mut [u64], a: Result<Answer, Refusal>) -> i64
    requires { 4 ≤ length answer.old }
    ensures { (result ≡ result_by (reply_of a).number 0) × (answer.new ≡ put_answer (reply_of a) answer.old) }
{
    match a {
        Ok(made) => {
            put_values(answer, made);
            0
        }
        Err(refusal) => {
            answer[0] = refusal.place();
            state::result(refusal.number(), 0)
        }
    }
}

// Refusal 1 with place 0: the state cannot be read, or the answer has fewer than four places and then stays as it is.
pub fn refuse_unread(answer: &mut [u64]) -> i64
    ensures { (result ≡ result_by 1 0) × (answer.new ≡ refuse_unread answer.old) }
{
    if answer.len() < 4 {
        return -1;
    }
    put_answer(answer, Err(Refusal::Shape))
}

// After a call: its answer and, where it was made, the state. Both slices are long enough, as `ready` has seen.
pub fn finish(state: &mut [u32], answer: &mut [u64], outcome: Outcome) -> i64
    requires { (40 ≤ length state.old) × (4 ≤ length answer.old) }
    ensures { (t : Tables) → after_c result answer.new state.new t ≡ told (after outcome t) state.old answer.old }
{
    let a = outcome.answer;
    let is_refused = a.is_err();
    if is_refused {
        return put_answer(answer, a);
    }
    put_state(state, outcome.state);
    put_answer(answer, a)
}

// ---- a call

// A call on the state that the numbers are: `make` makes it, and its answer and its state are put into theirs. Where they cannot be read, nothing is called.
pub fn call<F: FnMut(State) -> Outcome>(state: &mut [u32], answer: &mut [u64], make: &mut F) -> i64
    requires { ready state.old answer.old ≡ true → Takes F.FnMut make.old (state_of state.old, tt) }
    ensures unread { ready state.old answer.old ≡ false → (result ≡ result_by 1 0) × (answer.new ≡ refuse_unread answer.old) × (state.new ≡ state.old) × (make.new ≡ make.old) }
    ensures made { ready state.old answer.old ≡ true → (o : Outcome) × Called F.FnMut make.old (state_of state.old, tt) o make.new
        × ((t : Tables) → after_c result answer.new state.new t ≡ told (after o t) state.old answer.old) }
{
    if !ready(state, answer) {
        return refuse_unread(answer);
    }
    let st = state_at(state);
    let outcome = make(st);
    finish(state, answer, outcome)
}

// A call that writes text, as `call`: the state is lent to it for reading only.
pub fn call_text<F: FnMut(State) -> Result<Answer, Refusal>>(
    state: &[u32],
    answer: &mut [u64],
    make: &mut F,
) -> i64
    requires { ready state.now answer.old ≡ true → Takes F.FnMut make.old (state_of state.now, tt) }
    ensures unread { ready state.now answer.old ≡ false → (result ≡ result_by 1 0) × (answer.new ≡ refuse_unread answer.old) × (make.new ≡ make.old) }
    ensures made { ready state.now answer.old ≡ true → (a : Result Answer Refusal) × Called F.FnMut make.old (state_of state.now, tt) a make.new
        × (result ≡ result_by (reply_of a).number 0) × (answer.new ≡ put_answer (reply_of a) answer.old) }
{
    if !ready(state, answer) {
        return refuse_unread(answer);
    }
    let st = state_at(state);
    let a = make(st);
    put_answer(answer, a)
}

// ---- the window's numbers

// What a call that takes the window asks of all numbers before it looks at anything else.
pub fn ready_with(state: &[u32], answer: &[u64], window: &[u32]) -> bool
    ensures { result ≡ ready_with state.now answer.now window.now }
{
    window.len() >= 2 && ready(state, answer)
}

// The window's numbers; `ready_with` has seen that they are there.
pub fn window_at(window: &[u32]) -> Window
    requires { 2 ≤ length window.now }
    ensures { result ≡ window_at window.now }
{
    Window {
        clauses: window[0],
        literals: window[1],
    }
}

// After a call that takes the window: its numbers, where the call was made. Numbers behind the second stay.
pub fn finish_window(window: &mut [u32], a: Result<Answer, Refusal>, left: Window)
    requires { 2 ≤ length window.old }
    ensures { window.new ≡ put_window_by (reply_of a).number left window.old }
{
    let is_made = a.is_ok();
    if is_made {
        window[0] = left.clauses;
        window[1] = left.literals;
    }
}

// A call on the state and the window that the numbers are, as `call`: what it leaves of the window is put into its numbers too.
pub fn call_with<F: FnMut(State, Window) -> Windowed>(
    state: &mut [u32],
    answer: &mut [u64],
    window: &mut [u32],
    make: &mut F,
) -> i64
    requires { ready_with state.old answer.old window.old ≡ true → Takes F.FnMut make.old (state_of state.old, (window_at window.old, tt)) }
    ensures unread { ready_with state.old answer.old window.old ≡ false → (result ≡ result_by 1 0) × (answer.new ≡ refuse_unread answer.old) × (state.new ≡ state.old) × (window.new ≡ window.old) × (make.new ≡ make.old) }
    ensures made { ready_with state.old answer.old window.old ≡ true → (o : Windowed) × Called F.FnMut make.old (state_of state.old, (window_at window.old, tt)) o make.new
        × (window.new ≡ put_window_by (reply_of o.outcome.answer).number o.window window.old)
        × ((t : Tables) → after_c result answer.new state.new t ≡ told (after o.outcome t) state.old answer.old) }
{
    if !ready_with(state, answer, window) {
        return refuse_unread(answer);
    }
    let st = state_at(state);
    let w = window_at(window);
    let made = make(st, w);
    let outcome = made.outcome;
    finish_window(window, outcome.answer, made.window);
    finish(state, answer, outcome)
}
