// The call that replaces the programme which Run follows (document 02, CR 5). An open pass and the mark do not matter to it, and it changes no table.
#![tactic(auto)]

ghost use Rattle.std.specs.Prelude.{◌≡◌};
ghost use Rattle.tables.specs.Lent.{lent, returned};
ghost use Rattle.tables.specs.Calls.{after};
ghost use Rattle.set_programme.specs.SetProgramme.{set_call};

use state::{Answer, Outcome, Refusal, State};

// The exported call.
pub fn set_programme(
    clauses: &[u32],
    literals: &[i32],
    variables: &[i32],
    times: &[u32],
    links: &[i32],
    st: State,
    codes: &[u32],
) -> Outcome
    ensures { after result (returned clauses.now literals.now variables.now times.now links.now) ≡ set_call codes.now (lent clauses.now literals.now variables.now times.now links.now) st }
{
    if !shape::shape_ok(clauses, literals, variables, times, links, st) {
        return Outcome {
            answer: Err(Refusal::Shape),
            state: st,
        };
    }
    match programmes::judge(codes) {
        Err(index) => Outcome {
            answer: Err(Refusal::Codes(index)),
            state: st,
        },
        Ok(()) => {
            let programme = programmes::programme_of(codes);
            Outcome {
                answer: Ok(Answer::Set),
                state: st.programmed(programme),
            }
        }
    }
}
