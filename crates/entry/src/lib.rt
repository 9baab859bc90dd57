// The refusals that the five passes and Run share (1, 4 and 5), and what they leave to a call.
#![tactic(auto)]

ghost use Rattle.std.specs.Prelude.{◌≡◌};
ghost use Rattle.tables.specs.Lent.{lent};
ghost use Rattle.entry.specs.Entry.{unless_marked, entry_by, entry_of, opening_by, opening_of};

use state::{Pass, Refusal, State};

// The passes that can be left open, by which a call names the one that it resumes.
#[derive(Clone, Copy)]
pub enum PassName {
    Propagate,
    Merge,
    Sweep,
}

// What a call of such a pass does where it is not refused: it opens the pass, or resumes it, with the cursor and Propagate's change flag.
#[derive(Clone, Copy)]
pub enum Entry {
    Opens,
    Resumes(u32, bool),
}

fn unless_marked(mark: bool, entry: Entry) -> Result<Entry, Refusal>
    ensures { result ≡ unless_marked mark entry }
{
    if mark {
        return Err(Refusal::Marked);
    }
    Ok(entry)
}

// By the open pass and the mark.
fn entry_by(own: PassName, pass: Pass, mark: bool) -> Result<Entry, Refusal>
    ensures { result ≡ entry_by own pass mark }
{
    let entry = match (own, pass) {
        (_, Pass::Idle) => Entry::Opens,
        (PassName::Propagate, Pass::Propagate(k, changed)) => Entry::Resumes(k, changed),
        (PassName::Merge, Pass::Merge(k)) => Entry::Resumes(k, false),
        (PassName::Sweep, Pass::Sweep(k)) => Entry::Resumes(k, false),
        _ => return Err(Refusal::OtherPass),
    };
    unless_marked(mark, entry)
}

// The topmost of refusals 1, 4 and 5 that applies, or whether the call opens its pass or resumes it.
pub fn entry_of(
    clauses: &[u32],
    literals: &[i32],
    variables: &[i32],
    times: &[u32],
    links: &[i32],
    st: State,
    own: PassName,
) -> Result<Entry, Refusal>
    ensures { result ≡ entry_of own (lent clauses.now literals.now variables.now times.now links.now) st }
{
    if !shape::shape_ok(clauses, literals, variables, times, links, st) {
        return Err(Refusal::Shape);
    }
    entry_by(own, st.pass, st.mark)
}

// By the open pass and the mark, once refusal 1 does not apply. The call of a learnt clause asks here, since its refusal 1 looks at the window too.
pub fn opening_by(pass: Pass, mark: bool) -> Result<(), Refusal>
    ensures { result ≡ opening_by pass mark }
{
    match pass {
        Pass::Idle if mark => Err(Refusal::Marked),
        Pass::Idle => Ok(()),
        _ => Err(Refusal::OtherPass),
    }
}

// The same for a call that resumes nothing: Stamp, Failed and Run.
pub fn may_open(
    clauses: &[u32],
    literals: &[i32],
    variables: &[i32],
    times: &[u32],
    links: &[i32],
    st: State,
) -> Result<(), Refusal>
    ensures { result ≡ opening_of (lent clauses.now literals.now variables.now times.now links.now) st }
{
    if !shape::shape_ok(clauses, literals, variables, times, links, st) {
        return Err(Refusal::Shape);
    }
    opening_by(st.pass, st.mark)
}
