// Writing what stands as text. On an empty output the functions only measure, so the text is measured and written by the same functions.
#![tactic(auto)]

ghost use Rattle.std.specs.Prelude.{◌≡◌, ℕ, ◌+◌, ◌*◌, ◌≤◌, ◌<◌, ◌^◌, List, length, take, drop, ℤ};
ghost use Rattle.std.specs.Int.Signed.{non_neg};
ghost use Rattle.literal.specs.Literals.{Literal, lit_by, EachSmall};
ghost use Rattle.tables.specs.Tables.{class_of, value_of};
ghost use Rattle.tables.specs.Lent.{lent};
ghost use Rattle.printing.specs.Printing.{clauses_text};
ghost use Rattle.printing.specs.Stored.{Stored, Wrote};
ghost use Rattle.write.specs.Write.{write_text, after_write, write_into, write_call};
ghost use Rattle.write.specs.Gathered.{gathered, own_value, unit_for, class_for, clause_for, unit_at, class_at, written_at, formula};
ghost use Rattle.write.specs.Printable.{PrintableClauses, Printable};

use printing::Writer;
use state::{Answer, Refusal, State};

// ---- what one record gives

// The value of variable w if it is its own class, 0 otherwise. A variable with another's class needs no unit: the class clauses give it its value.
fn own_value(variables: &[i32], w: usize) -> i32
    requires { (0 < w) × (w ≤ 1024) × (2 * w ≤ length variables.now) }
    ensures { result ≡ own_value w (class_of variables.now w) (value_of variables.now w) }
{
    let class = variables[2 * w - 2];
    let value = variables[2 * w - 1];
    if class == w as i32 { value } else { 0 }
}

// The literal of variable w that a value makes true.
fn literal_of(w: usize, value: i32) -> i32
    requires { w ≤ 1024 }
    ensures { result ≡ lit_by (non_neg value) w }
{
    let l = w as i32;
    if value < 0 { -l } else { l }
}

// The unit of variable w, if it has a value.
fn put_unit(writer: &mut Writer<'_>, w: usize, value: i32)
    requires { (w ≤ 1024) × (writer.old.at + length (clauses_text (unit_for w value)) < 2 ^ 63) }
    ensures { Wrote (clauses_text (unit_for w value)) writer.old writer.new }
{
    if value != 0 {
        writer.put_clause(&[literal_of(w, value)]);
    }
}

// The two clauses of variable w, if its class is another literal: together they say that the variable equals its class.
fn put_class(writer: &mut Writer<'_>, w: usize, class: i32)
    requires { (w ≤ 1024) × Literal w class × (writer.old.at + length (clauses_text (class_for w class)) < 2 ^ 63) }
    ensures { Wrote (clauses_text (class_for w class)) writer.old writer.new }
{
    let l = w as i32;
    if class != l {
        writer.put_clause(&[l, -class]);
        writer.put_clause(&[-l, class]);
    }
}

// A clause, if it stands.
fn put_if_standing(writer: &mut Writer<'_>, literals: &[i32], start: usize, len: usize, flag: u32)
    requires { (start + len ≤ 16384) × (16384 ≤ length literals.now) × EachSmall (take len (drop start literals.now)) × (writer.old.at + length (clauses_text (clause_for flag (take len (drop start literals.now)))) < 2 ^ 63) }
    ensures { Wrote (clauses_text (clause_for flag (take len (drop start literals.now)))) writer.old writer.new }
{
    if flag != 0 {
        writer.put_clause(&literals[start..start + len]);
    }
}

// ---- what all records give

// A unit for each value of a variable that is its own class, by rising variable.
fn put_units(writer: &mut Writer<'_>, variables: &[i32], v: usize)
    requires { (v ≤ 1024) × (2 * v ≤ length variables.now) × (writer.old.at + length (clauses_text (gathered (unit_at variables.now) v 0)) < 2 ^ 63) }
    ensures { Wrote (clauses_text (gathered (unit_at variables.now) v 0)) writer.old writer.new }
{
    for w in 1..=v {
        put_unit(writer, w, own_value(variables, w));
    }
}

// Two clauses for each class that is another literal, by rising variable.
fn put_classes(writer: &mut Writer<'_>, variables: &[i32], v: usize)
    requires { (v ≤ 1024) × (2 * v ≤ length variables.now) × ((w : ℕ) → w < v → Literal (w + 1) (class_of variables.now (w + 1))) × (writer.old.at + length (clauses_text (gathered (class_at variables.now) v 0)) < 2 ^ 63) }
    ensures { Wrote (clauses_text (gathered (class_at variables.now) v 0)) writer.old writer.new }
{
    for w in 1..=v {
        put_class(writer, w, variables[2 * w - 2]);
    }
}

// The clauses that stand, by rising number.
fn put_standing(writer: &mut Writer<'_>, clauses: &[u32], literals: &[i32], n: usize)
    requires { PrintableClauses clauses.now literals.now n × (writer.old.at + length (clauses_text (gathered (written_at clauses.now literals.now) n 0)) < 2 ^ 63) }
    ensures { Wrote (clauses_text (gathered (written_at clauses.now literals.now) n 0)) writer.old writer.new }
{
    for i in 0..n {
        let start = clauses[3 * i] as usize;
        let len = clauses[3 * i + 1] as usize;
        let flag = clauses[3 * i + 2];
        put_if_standing(writer, literals, start, len, flag);
    }
}

// ---- how many clauses they give: the header says it, and comes before them

fn count_units(variables: &[i32], v: usize) -> u32
    requires { (v ≤ 1024) × (2 * v ≤ length variables.now) }
    ensures { result ≡ length (gathered (unit_at variables.now) v 0) }
{
    let mut count = 0;
    for w in 1..=v {
        if own_value(variables, w) != 0 {
            count += 1;
        }
    }
    count
}

fn count_classes(variables: &[i32], v: usize) -> u32
    requires { (v ≤ 1024) × (2 * v ≤ length variables.now) }
    ensures { result ≡ length (gathered (class_at variables.now) v 0) }
{
    let mut count = 0;
    for w in 1..=v {
        if variables[2 * w - 2] != w as i32 {
            count += 2;
        }
    }
    count
}

fn count_standing(clauses: &[u32], n: usize) -> u32
    requires { (n ≤ 4096) × (3 * n ≤ length clauses.now) }
    ensures { (literals : List ℤ) → result ≡ length (gathered (written_at clauses.now literals) n 0) }
{
    let mut count = 0;
    for i in 0..n {
        if clauses[3 * i + 2] != 0 {
            count += 1;
        }
    }
    count
}

// ---- the text and the call

// The number of clauses that follow the header, where the mark is off.
fn count_clauses(clauses: &[u32], variables: &[i32], v: usize, n: usize) -> u32
    requires { (v ≤ 1024) × (2 * v ≤ length variables.now) × (n ≤ 4096) × (3 * n ≤ length clauses.now) }
    ensures { (literals : List ℤ) → result ≡ length (formula clauses.now literals variables.now v n) }
{
    let units = count_units(variables, v);
    let classes = count_classes(variables, v);
    units + classes + count_standing(clauses, n)
}

// The header and the clauses, from the front of the output on; how long they are. Under the mark the empty clause is the only one.
fn put_formula(
    out: &mut [u8],
    clauses: &[u32],
    literals: &[i32],
    variables: &[i32],
    st: State,
) -> usize
    requires { Printable clauses.now literals.now variables.now st.v st.n }
    ensures { (times : List ℕ) (links : List ℤ) → Stored (write_text (lent clauses.now literals.now variables.now times links) st) 0 out.old out.new result }
{
    let mut writer = Writer::new(out);
    if st.mark {
        writer.put_header(st.v, 1);
        writer.put_clause(&[]);
        return writer.at;
    }
    let v = st.v as usize;
    let n = st.n as usize;
    writer.put_header(st.v, count_clauses(clauses, variables, v, n));
    put_units(&mut writer, variables, v);
    put_classes(&mut writer, variables, v);
    put_standing(&mut writer, clauses, literals, n);
    writer.at
}

// Write for tables and a state that are known to be as the shape rule has them: the text, or refusal 10 with the length needed.
fn write_text(
    clauses: &[u32],
    literals: &[i32],
    variables: &[i32],
    st: State,
    out: &mut [u8],
) -> Result<Answer, Refusal>
    requires { Printable clauses.now literals.now variables.now st.v st.n }
    ensures { (times : List ℕ) (links : List ℤ) → after_write result out.new ≡ write_into (write_text (lent clauses.now literals.now variables.now times links) st) out.old }
{
    // measured first, on an empty part of the output, so that a refused call stores nothing
    let needed = put_formula(&mut out[..0], clauses, literals, variables, st);
    if out.len() < needed {
        return Err(Refusal::Short(needed));
    }
    let written = put_formula(out, clauses, literals, variables, st);
    Ok(Answer::Written(written))
}

// The call: refusal 1 unless the shape rule holds, then as `write_text`.
pub fn write(
    clauses: &[u32],
    literals: &[i32],
    variables: &[i32],
    times: &[u32],
    links: &[i32],
    st: State,
    out: &mut [u8],
) -> Result<Answer, Refusal>
    ensures { after_write result out.new ≡ write_call (lent clauses.now literals.now variables.now times.now links.now) st out.old }
{
    if !shape::shape_ok(clauses, literals, variables, times, links, st) {
        return Err(Refusal::Shape);
    }
    write_text(clauses, literals, variables, st, out)
}
