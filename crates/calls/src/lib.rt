// The calls over a lent slice of stamp records. Each copies the records into columns and makes the call of its own crate on these: where fewer than
// 2,048 records are lent the columns are too short, and that call answers refusal 1. Stamp and Run put the columns back.
#![tactic(auto)]

ghost use Rattle.std.specs.Prelude.{◌≡◌};
ghost use Rattle.tables.specs.Calls.{after};
ghost use Rattle.window.specs.Window.{places, after_with};
ghost use Rattle.load.specs.Load.{load_with};
ghost use Rattle.write.specs.Write.{after_write, write_call};
ghost use Rattle.propagate.specs.Propagate.{propagate_call};
ghost use Rattle.merge.specs.Merge.{merge_call};
ghost use Rattle.stamp.specs.Stamp.{stamp_call};
ghost use Rattle.failed.specs.Failed.{failed_call};
ghost use Rattle.sweep.specs.Sweep.{sweep_call};
ghost use Rattle.learn.specs.Learn.{learn_call};
ghost use Rattle.explain.specs.Explain.{explain_call};
ghost use Rattle.run.specs.Run.{run_call};
ghost use Rattle.set_programme.specs.SetProgramme.{set_call};
ghost use Rattle.calls.specs.Calls.{recorded, after_stamp, in_records, after_run, run_in_records};

use stamp_records::StampRecord;
use state::{Answer, Outcome, Refusal, State};
use window::{Window, Windowed};

// A load. Of the stamps only the number of records counts.
pub fn load(
    text: &[u8],
    clauses: &mut [u32],
    literals: &mut [i32],
    variables: &mut [i32],
    stamps: &[StampRecord],
    st: State,
    sizes: &mut [u32],
    learnt: &mut [i32],
    window: Window,
) -> Windowed
    ensures { after_with result (recorded clauses.new literals.new variables.new stamps.now) sizes.new learnt.new
        ≡ load_with text.now (recorded clauses.old literals.old variables.old stamps.now) st (places sizes.old learnt.old window) }
{
    let columns = stamp_records::columns_of(stamps);
    load::load(
        text,
        clauses,
        literals,
        variables,
        columns.times(),
        columns.links(),
        st,
        sizes,
        learnt,
        window,
    )
}

// Write. Of the stamps only the shape rule speaks.
pub fn write(
    clauses: &[u32],
    literals: &[i32],
    variables: &[i32],
    stamps: &[StampRecord],
    st: State,
    out: &mut [u8],
) -> Result<Answer, Refusal>
    ensures { after_write result out.new ≡ write_call (recorded clauses.now literals.now variables.now stamps.now) st out.old }
{
    let columns = stamp_records::columns_of(stamps);
    write::write(
        clauses,
        literals,
        variables,
        columns.times(),
        columns.links(),
        st,
        out,
    )
}

// Explain: what a Sweep would do to the clause of this number, with the chains that show it. Of the stamps the times say what it would do, and the parents the chains.
pub fn explain(
    clauses: &[u32],
    literals: &[i32],
    variables: &[i32],
    stamps: &[StampRecord],
    st: State,
    number: u32,
    out: &mut [u8],
) -> Result<Answer, Refusal>
    ensures { after_write result out.new ≡ explain_call number (recorded clauses.now literals.now variables.now stamps.now) st out.old }
{
    let columns = stamp_records::columns_of(stamps);
    explain::explain(
        clauses,
        literals,
        variables,
        columns.times(),
        columns.links(),
        st,
        number,
        out,
    )
}

// Propagate. Of the stamps only the shape rule speaks.
pub fn propagate(
    clauses: &mut [u32],
    literals: &mut [i32],
    variables: &mut [i32],
    stamps: &[StampRecord],
    st: State,
    n: u16,
) -> Outcome
    ensures { after result (recorded clauses.new literals.new variables.new stamps.now)
        ≡ propagate_call n (recorded clauses.old literals.old variables.old stamps.now) st }
{
    let columns = stamp_records::columns_of(stamps);
    propagate::propagate(
        clauses,
        literals,
        variables,
        columns.times(),
        columns.links(),
        st,
        n,
    )
}

// Merge. Of the stamps only the shape rule speaks.
pub fn merge(
    clauses: &mut [u32],
    literals: &mut [i32],
    variables: &mut [i32],
    stamps: &[StampRecord],
    st: State,
    n: u16,
) -> Outcome
    ensures { after result (recorded clauses.new literals.new variables.new stamps.now)
        ≡ merge_call n (recorded clauses.old literals.old variables.old stamps.now) st }
{
    let columns = stamp_records::columns_of(stamps);
    merge::merge(
        clauses,
        literals,
        variables,
        columns.times(),
        columns.links(),
        st,
        n,
    )
}

// Stamp. Later records of a longer slice stay.
pub fn stamp(
    clauses: &[u32],
    literals: &[i32],
    variables: &[i32],
    stamps: &mut [StampRecord],
    st: State,
    order: &[i32],
) -> Outcome
    ensures { after_stamp result stamps.new
        ≡ in_records (stamp_call order.now (recorded clauses.now literals.now variables.now stamps.old) st) stamps.old }
{
    let columns = stamp_records::columns_of(stamps);
    let end = 2 * columns.count;
    let mut times = columns.times;
    let mut links = columns.links;
    let outcome = stamp::stamp(
        clauses,
        literals,
        variables,
        &mut times[..end],
        &mut links[..end],
        st,
        order,
    );
    stamp_records::put_columns(stamps, &times[..end], &links[..end]);
    outcome
}

// Failed.
pub fn failed(
    clauses: &[u32],
    literals: &[i32],
    variables: &mut [i32],
    stamps: &[StampRecord],
    st: State,
) -> Outcome
    ensures { after result (recorded clauses.now literals.now variables.new stamps.now)
        ≡ failed_call (recorded clauses.now literals.now variables.old stamps.now) st }
{
    let columns = stamp_records::columns_of(stamps);
    failed::failed(
        clauses,
        literals,
        variables,
        columns.times(),
        columns.links(),
        st,
    )
}

// Sweep.
pub fn sweep(
    clauses: &mut [u32],
    literals: &mut [i32],
    variables: &[i32],
    stamps: &[StampRecord],
    st: State,
    n: u16,
) -> Outcome
    ensures { after result (recorded clauses.new literals.new variables.now stamps.now)
        ≡ sweep_call n (recorded clauses.old literals.old variables.now stamps.now) st }
{
    let columns = stamp_records::columns_of(stamps);
    sweep::sweep(
        clauses,
        literals,
        variables,
        columns.times(),
        columns.links(),
        st,
        n,
    )
}

// A learnt clause.
pub fn learn(
    clauses: &[u32],
    literals: &[i32],
    variables: &[i32],
    stamps: &[StampRecord],
    st: State,
    newcomer: &[i32],
    sizes: &mut [u32],
    learnt: &mut [i32],
    window: Window,
) -> Windowed
    ensures { after_with result (recorded clauses.now literals.now variables.now stamps.now) sizes.new learnt.new
        ≡ learn_call newcomer.now (recorded clauses.now literals.now variables.now stamps.now) st (places sizes.old learnt.old window) }
{
    let columns = stamp_records::columns_of(stamps);
    learn::learn(
        clauses,
        literals,
        variables,
        columns.times(),
        columns.links(),
        st,
        newcomer,
        sizes,
        learnt,
        window,
    )
}

// Run. Later records of a longer slice stay.
pub fn run(
    clauses: &mut [u32],
    literals: &mut [i32],
    variables: &mut [i32],
    stamps: &mut [StampRecord],
    st: State,
    n: u16,
) -> Outcome
    ensures { after_run result clauses.new literals.new variables.new stamps.new
        ≡ run_in_records (run_call n (recorded clauses.old literals.old variables.old stamps.old) st) stamps.old }
{
    let columns = stamp_records::columns_of(stamps);
    let end = 2 * columns.count;
    let mut times = columns.times;
    let mut links = columns.links;
    let outcome = run::run(
        clauses,
        literals,
        variables,
        &mut times[..end],
        &mut links[..end],
        st,
        n,
    );
    stamp_records::put_columns(stamps, &times[..end], &links[..end]);
    outcome
}

// The programme replaced. Of the stamps only the shape rule speaks.
pub fn set_programme(
    clauses: &[u32],
    literals: &[i32],
    variables: &[i32],
    stamps: &[StampRecord],
    st: State,
    codes: &[u32],
) -> Outcome
    ensures { after result (recorded clauses.now literals.now variables.now stamps.now)
        ≡ set_call codes.now (recorded clauses.now literals.now variables.now stamps.now) st }
{
    let columns = stamp_records::columns_of(stamps);
    set_programme::set_programme(
        clauses,
        literals,
        variables,
        columns.times(),
        columns.links(),
        st,
        codes,
    )
}
