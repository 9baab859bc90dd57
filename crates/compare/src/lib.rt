// The viewer's call: how the intervals of two literals lie (document 02, CR 6).
#![tactic(auto)]

ghost use Rattle.std.specs.Prelude.{◌≡◌};
ghost use Rattle.compare.specs.Compare.{has_record, compare_call, comparison_result};

use intervals::Relation;
use state::Refusal;

// Whether l is a literal of one of v variables, and has a record: the stamps are those of 1,024 variables.
fn has_record(l: i32, v: u32) -> bool
    ensures { result ≡ has_record v l }
{
    literal::in_range(l, 1024) && literal::in_range(l, v)
}

// The exported call: how the interval of p lies to that of q, by the times as they stand, fresh or not. Refusal 1 where these are fewer than stated or a literal is not of the v variables.
pub fn compare(times: &[u32], v: u32, p: i32, q: i32) -> Result<Relation, Refusal>
    ensures value { result ≡ compare_call times.now v p q }
    ensures times_value { times.now ≡ times.now }
{
    if times.len() < 4096 || !has_record(p, v) || !has_record(q, v) {
        return Err(Refusal::Shape);
    }
    let a = literal::slot_of(p) as u32;
    let b = literal::slot_of(q) as u32;
    Ok(stamp_columns::compare(times, a, b))
}

// What C gets: the number of the answer, or that of the refusal, negative.
pub fn result(answer: Result<Relation, Refusal>) -> i64
    ensures { result ≡ comparison_result answer }
{
    match answer {
        Err(refusal) => state::result(refusal.number(), 0),
        Ok(relation) => state::result(0, relation.number()),
    }
}
