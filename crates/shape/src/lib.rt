// The shape rule of specs/Shape.antt, checked in linear time.
#![tactic(auto)]

ghost use Rattle.std.specs.Prelude.{◌≡◌, true, false, ℕ, ◌+◌, ◌*◌, ◌≤◌, ◌<◌, length, replicate, pos};
ghost use Rattle.base.specs.Decide.{Decides};
ghost use Rattle.tables.specs.Tables.{class_of};
ghost use Rattle.tables.specs.Values.{class_value};
ghost use Rattle.tables.specs.Lent.{lent};
ghost use Rattle.shape.specs.Shape.{Parts, Literals, Clauses, Variable, Spread, Cursor, settled_to};
ghost use Rattle.stamps.specs.Fresh.{FreshStamps};
ghost use Rattle.programmes.specs.Rules.{Passing};
ghost use Rattle.shape.specs.Row.{Row, Below, Classed};
ghost use Rattle.shape.specs.Decision.{shape_ok};

use state::{Pass, State};

// ---- the clause records

// A record after others, of which none starts above floor and none that has places ends above end.
fn row_ok(start: u32, len: u32, flag: u32, floor: u32, end: u32) -> bool
    ensures { Decides result (Row start len flag floor end) }
{
    flag <= 1
        && floor <= start
        && start as usize + len as usize <= 16384
        && (len == 0 || (flag != 0 && end <= start))
}

// The records of the first n clauses.
fn rows_ok(clauses: &[u32], n: usize) -> bool
    requires { (n ≤ 4096) × (3 * n ≤ length clauses.now) }
    ensures { Decides result (Parts n clauses.now) }
{
    let mut floor = 0;
    let mut end = 0;
    for i in 0..n {
        let start = clauses[3 * i];
        let len = clauses[3 * i + 1];
        let flag = clauses[3 * i + 2];
        if !row_ok(start, len, flag, floor, end) {
            return false;
        }
        floor = start;
        if len != 0 {
            end = start + len;
        }
    }
    true
}

// ---- the literals of a clause

// Whether variable w is its own class, asked only of a settled clause.
fn own_ok(variables: &[i32], w: usize, settled: bool) -> bool
    requires { (0 < w) × (w ≤ 1024) × (2 * w ≤ length variables.now) }
    ensures { Decides result (settled ≡ true → class_of variables.now w ≡ pos w) }
{
    !settled || variables[2 * w - 2] == w as i32
}

// The literals of one clause, in the tables or in the window. `last` has for each variable the number of the clause in which it stood last, all below this clause's number.
pub fn literals_ok(
    literals: &[i32],
    variables: &[i32],
    start: usize,
    len: usize,
    v: u32,
    settled: bool,
    number: u32,
    last: &mut [u32],
) -> bool
    requires { (start + len ≤ length literals.now) × (v ≤ 1024) × (2 * v ≤ length variables.now) × (length last.old ≡ 1024) × Below number last.old }
    ensures { Decides result (Literals v literals.now variables.now settled start len) × Below (number + 1) last.new }
{
    for &l in &literals[start..start + len] {
        if !literal::in_range(l, v) {
            return false;
        }
        let w = literal::var_of(l);
        let repeated = last[w - 1] == number;
        if repeated || !own_ok(variables, w, settled) {
            return false;
        }
        last[w - 1] = number;
    }
    true
}

// ---- all clauses

// A clause stands empty only under the mark.
fn empty_ok(flag: u32, len: usize, mark: bool) -> bool
    ensures { Decides result (flag ≡ 1 → len ≡ 0 → mark ≡ true) }
{
    match (len, flag) {
        (0, 1) => mark,
        _ => true,
    }
}

// The clauses whose records are right, with an empty table of where each variable stood last.
fn clauses_by(
    clauses: &[u32],
    literals: &[i32],
    variables: &[i32],
    v: u32,
    n: usize,
    settled: usize,
    mark: bool,
    last: &mut [u32],
) -> bool
    requires { (v ≤ 1024) × (n ≤ 4096) × (3 * n ≤ length clauses.now) × (16384 ≤ length literals.now) × (2 * v ≤ length variables.now) × Parts n clauses.now × (last.old ≡ replicate 1024 0) }
    ensures { Decides result (Clauses v n settled mark clauses.now literals.now variables.now) }
{
    for i in 0..n {
        let start = clauses[3 * i] as usize;
        let len = clauses[3 * i + 1] as usize;
        let flag = clauses[3 * i + 2];
        let literals_hold = literals_ok(
            literals,
            variables,
            start,
            len,
            v,
            i < settled,
            i as u32 + 1,
            last,
        );
        if !literals_hold || !empty_ok(flag, len, mark) {
            return false;
        }
    }
    true
}

// The first n clauses; those below settled hold variables that are their own class.
fn clauses_ok(
    clauses: &[u32],
    literals: &[i32],
    variables: &[i32],
    v: u32,
    n: usize,
    settled: usize,
    mark: bool,
) -> bool
    requires { (v ≤ 1024) × (n ≤ 4096) × (3 * n ≤ length clauses.now) × (16384 ≤ length literals.now) × (2 * v ≤ length variables.now) }
    ensures { Decides result (Clauses v n settled mark clauses.now literals.now variables.now) }
{
    rows_ok(clauses, n)
        && clauses_by(
            clauses,
            literals,
            variables,
            v,
            n,
            settled,
            mark,
            &mut [0; 1024],
        )
}

// ---- the variables

// The class and the value of variable w.
fn variable_ok(variables: &[i32], w: usize) -> bool
    requires { (0 < w) × (w ≤ 1024) × (2 * w ≤ length variables.now) }
    ensures { Decides result (Variable variables.now w) }
{
    let class = variables[2 * w - 2];
    let value = variables[2 * w - 1];
    if !literal::in_range(class, w as u32) {
        return false;
    }
    let u = literal::var_of(class);
    variables[2 * u - 2] == u as i32 && matches!(value, -1..=1)
}

// The value of the class literal of variable w, sign included. The shape rule has the class and its value, here for the variables that were checked before.
pub fn class_value(variables: &[i32], w: usize) -> i32
    requires { Classed variables.now w }
    ensures { result ≡ class_value variables.now w }
{
    let class = variables[2 * w - 2];
    let u = literal::var_of(class);
    literal::signed_by(class, variables[2 * u - 1])
}

// Variables 1 to v: their records, and that the value of each is that of its class literal.
fn variables_ok(variables: &[i32], v: u32) -> bool
    requires { (v ≤ 1024) × (2 * v ≤ length variables.now) }
    ensures { Decides result (((w : ℕ) → w < v → Variable variables.now (w + 1)) × Spread v variables.now) }
{
    for w in 1..=v as usize {
        if !variable_ok(variables, w) || variables[2 * w - 1] != class_value(variables, w) {
            return false;
        }
    }
    true
}

// ---- the state and the stamps

// The cursor of an open pass lies within it, and none is open under the mark.
fn cursor_ok(st: State) -> bool
    ensures { Decides result (Cursor st.pass st.n st.mark) }
{
    match st.pass {
        Pass::Idle => true,
        Pass::Propagate(c, _) | Pass::Merge(c) | Pass::Sweep(c) => within(c, st.n, st.mark),
    }
}

fn within(cursor: u32, n: u32, mark: bool) -> bool
    ensures { Decides result ((cursor < n) × (mark ≡ false)) }
{
    !mark && cursor < n
}

// The open pass and the programme.
fn state_ok(st: State) -> bool
    ensures { Decides result (Cursor st.pass st.n st.mark × Passing st.programme) }
{
    programmes::programme_ok(st.programme) && cursor_ok(st)
}

// The number of clauses from the first on whose variables must be their own class.
fn settled_to(st: State) -> u32
    ensures { result ≡ settled_to st.pass st.n }
{
    match st.pass {
        Pass::Merge(c) => c,
        Pass::Idle | Pass::Propagate(_, _) | Pass::Sweep(_) => st.n,
    }
}

// The stamps, while they are fresh.
fn fresh_ok(times: &[u32], links: &[i32], v: u32, fresh: bool) -> bool
    requires { (v ≤ 1024) × (4 * v ≤ length times.now) × (4 * v ≤ length links.now) }
    ensures { Decides result (fresh ≡ true → FreshStamps v times.now links.now) }
{
    !fresh || stamps::stamps_ok(times, links, v)
}

// ---- the rule

// Whether the tables and the state are as the shape rule has them, whatever they hold.
pub fn shape_ok(
    clauses: &[u32],
    literals: &[i32],
    variables: &[i32],
    times: &[u32],
    links: &[i32],
    st: State,
) -> bool
    ensures { result ≡ shape_ok (lent clauses.now literals.now variables.now times.now links.now) st }
{
    tables::long_ok(clauses, literals, variables, times, links)
        && st.v <= 1024
        && st.n <= 4096
        && state_ok(st)
        && variables_ok(variables, st.v)
        && clauses_ok(
            clauses,
            literals,
            variables,
            st.v,
            st.n as usize,
            settled_to(st) as usize,
            st.mark,
        )
        && fresh_ok(times, links, st.v, st.fresh)
}
