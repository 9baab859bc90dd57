// The call on texts: a formula is loaded, simplified and written in one call, on tables of its own.
#![tactic(auto)]

ghost use Rattle.std.specs.Prelude.{◌≡◌, length};
ghost use Rattle.state.specs.Answers.{reply_of};
ghost use Rattle.tables.specs.Lent.{lent, returned};
ghost use Rattle.tables.specs.Calls.{after};
ghost use Rattle.write.specs.Write.{after_write};
ghost use Rattle.simplify.specs.Texts.{run_unless, write_after, simplify_in, simplify_text, fits};

use state::{Answer, Outcome, Refusal, State};

// A marked load is not run.
fn run_loaded(
    clauses: &mut [u32],
    literals: &mut [i32],
    variables: &mut [i32],
    times: &mut [u32],
    links: &mut [i32],
    loaded: Outcome,
    rounds: u16,
) -> Outcome
    ensures { after result (returned clauses.new literals.new variables.new times.new links.new)
        ≡ run_unless loaded.state.mark rounds (after loaded (lent clauses.old literals.old variables.old times.old links.old)) }
{
    let st = loaded.state;
    if st.mark {
        return loaded;
    }
    run::run(clauses, literals, variables, times, links, st, rounds)
}

// Run and Write. A run right after an unmarked load is not refused (law `run_taken`, crate `refinement`), so its answer is not looked at.
fn run_and_write(
    clauses: &mut [u32],
    literals: &mut [i32],
    variables: &mut [i32],
    times: &mut [u32],
    links: &mut [i32],
    loaded: Outcome,
    rounds: u16,
    out: &mut [u8],
) -> Result<Answer, Refusal>
    ensures out_after { after_write result out.new
        ≡ write_after 0 (run_unless loaded.state.mark rounds (after loaded (lent clauses.old literals.old variables.old times.old links.old))) out.old }
    ensures fits { fits (reply_of result) (length out.old) }
{
    let ran = run_loaded(clauses, literals, variables, times, links, loaded, rounds);
    let st = ran.state;
    write::write(clauses, literals, variables, times, links, st, out)
}

// The load first; a refused load is answered, and nothing is written.
fn simplify(
    text: &[u8],
    rounds: u16,
    out: &mut [u8],
    clauses: &mut [u32],
    literals: &mut [i32],
    variables: &mut [i32],
    times: &mut [u32],
    links: &mut [i32],
) -> Result<Answer, Refusal>
    ensures out_after { after_write result out.new ≡ simplify_in (lent clauses.old literals.old variables.old times.old links.old) text.now rounds out.old }
    ensures fits { fits (reply_of result) (length out.old) }
{
    let st = State::empty();
    let loaded = load::load_tables(text, clauses, literals, variables, times, links, st);
    loaded.answer?;
    run_and_write(
        clauses, literals, variables, times, links, loaded, rounds, out,
    )
}

// The text simplified in so many rounds, written into the output.
pub fn simplify_text(text: &[u8], rounds: u16, out: &mut [u8]) -> Result<Answer, Refusal>
    ensures out_after { after_write result out.new ≡ simplify_text text.now rounds out.old }
    ensures fits { fits (reply_of result) (length out.old) }
{
    let mut clauses: [u32; 12288] = [0; 12288];
    let mut literals: [i32; 16384] = [0; 16384];
    let mut variables: [i32; 2048] = [0; 2048];
    let mut times: [u32; 4096] = [0; 4096];
    let mut links: [i32; 4096] = [0; 4096];
    simplify(
        text,
        rounds,
        out,
        &mut clauses,
        &mut literals,
        &mut variables,
        &mut times,
        &mut links,
    )
}
