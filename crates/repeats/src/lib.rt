// Repeated literals of one clause removed, in time linear in the clause: each literal has a mark, which tells whether it was kept.
#![tactic(auto)]

ghost use Rattle.std.specs.Prelude.{◌≡◌, length};
ghost use Rattle.literal.specs.Literals.{Literal};
ghost use Rattle.literal.specs.Clauses.{distinct, tautology};
ghost use Rattle.literal.specs.Holding.{holding};
ghost use Rattle.repeats.specs.Marks.{mark_of, Markable, Unmarkable, with_mark, FirstsKept};

// What is left of a clause without repeats: how many literals, and whether some variable stands in it with both signs.
#[derive(Clone, Copy)]
pub struct Distinct {
    pub count: usize,
    pub both: bool,
}

// The place of a literal's mark: one addition, where a slot asks for the sign.
fn mark_of(l: i32) -> usize
    requires { Literal 1024 l }
    ensures { result ≡ mark_of l }
{
    (l + 1024) as usize
}

// Moves the first of each literal to the front, in order, and marks it; what stands behind the kept ones is left as it was. A variable has
// both signs if the complement of a new literal has a mark already; that is an `if` of its own, and not `both || ..`, of which the
// compiler makes a jump over the load of the mark.
fn keep_first(part: &mut [i32], marks: &mut [u32]) -> Distinct
    requires { Markable part.old marks.old }
    ensures { FirstsKept part.old marks.old part.new marks.new result }
{
    let mut n = 0;
    let mut both = false;
    for i in 0..part.len() {
        let l = part[i];
        let mark = mark_of(l);
        let other = mark_of(literal::complement(l));
        let is_new = marks[mark] == 0;
        if is_new {
            if marks[other] == 1 {
                both = true;
            }
            marks[mark] = 1;
            part[n] = l;
            n += 1;
        }
    }
    Distinct { count: n, both }
}

// Takes the marks of the literals back, so that the next clause finds none.
fn unmark(part: &[i32], marks: &mut [u32])
    requires { Unmarkable part.now marks.old }
    ensures { marks.new ≡ with_mark 0 part.now marks.old }
{
    for &l in part {
        let mark = mark_of(l);
        marks[mark] = 0;
    }
}

// Keeps the first of each literal, in order at the front, with 0 behind. The marks, one for each literal, are 0 before and after: the caller
// lends an array of 0. The literals are of at most 1,024 variables, as the shape rule or the judgement of a text has it.
pub fn remove_repeats(part: &mut [i32], marks: &mut [u32]) -> Distinct
    requires { Markable part.old marks.old }
    ensures { (result.count ≡ length (distinct part.old)) × (result.both ≡ tautology (distinct part.old))
        × (part.new ≡ holding (distinct part.old) part.old) × (marks.new ≡ marks.old) }
{
    let kept = keep_first(part, marks);
    let n = kept.count;
    unmark(&part[..n], marks);
    literal::zero_from(part, n);
    kept
}
