// The tables that a caller lends: their stated lengths.
#![tactic(auto)]

ghost use Rattle.base.specs.Decide.{Decides};
ghost use Rattle.tables.specs.Lent.{lent};
ghost use Rattle.tables.specs.Long.{Long};

// No table is shorter than stated.
pub fn long_ok(
    clauses: &[u32],
    literals: &[i32],
    variables: &[i32],
    times: &[u32],
    links: &[i32],
) -> bool
    ensures { Decides result (Long (lent clauses.now literals.now variables.now times.now links.now)) }
{
    clauses.len() >= 12288
        && literals.len() >= 16384
        && variables.len() >= 2048
        && times.len() >= 4096
        && links.len() >= 4096
}
