// Two texts joined by a table of links, judged as one formula: the left text, the right text, the links, the limits. The right text's
// numbers, renumbered, go behind the left's, so that the formula is laid in the tables as that of a single text is (crate `load`). The time
// is linear in the texts and the links.
#![tactic(auto)]

ghost use Rattle.std.specs.Prelude.{◌≡◌, false, ◌&&◌, ◌||◌, List, map, ℕ, ◌+◌, ◌*◌, ◌≤◌, ◌<◌, length, take, get_or, leb, nat_abs, MatchResult};
ghost use Rattle.std.proofs.lemmas.List.Edits.{sets};
ghost use Rattle.literal.specs.Ranged.{total};
ghost use Rattle.dimacs.specs.Numbers.{clauses_in, Judged};
ghost use Rattle.join.specs.Links.{pair_count, outside, first_bad, joined_variables};
ghost use Rattle.dimacs.specs.Text.{judge_text};
ghost use Rattle.dimacs.specs.Header.{fitting};
ghost use Rattle.join.specs.Join.{join_clauses, judge_linked, judge_both, judge_join};
ghost use Rattle.join.specs.FunctionContracts.{Unnumbered, LinksPut, Numbered, numbered_by, Renumberable, Kept, both_in, with_right};

use dimacs::Header;
use state::Refusal;

// Whether x is none of the variables 1 to v, or used before.
fn bad_side(x: u32, v: u32, used: &[bool]) -> bool
    requires { (v ≤ 1024) × (length used.now ≡ 1025) }
    ensures { result ≡ (outside v x || get_or used.now x false) }
{
    x == 0 || v < x || used[x as usize]
}

// Refusal 15: the first pair with a variable out of range or used before on its side. If there is none, each linked right variable has
// its left one in `numbering`.
fn link(pairs: &[u32], v: u32, w: u32, numbering: &mut [u32]) -> Result<(), usize>
    requires { (v ≤ 1024) × ((w ≤ 1024) × Unnumbered numbering.old) }
    ensures { MatchResult result (λ _. (first_bad v w pairs.now ≡ pair_count pairs.now) × LinksPut pairs.now numbering.new)
        (λ i. (i ≡ first_bad v w pairs.now) × (i < pair_count pairs.now)) }
{
    let mut lefts = [false; 1025];
    let mut rights = [false; 1025];
    for (i, pair) in pairs.chunks(2).enumerate() {
        let l = pair[0];
        // a number left over is a pair without a right variable
        let r = pair.get(1).copied().unwrap_or(0);
        if bad_side(l, v, &lefts) || bad_side(r, w, &rights) {
            return Err(i);
        }
        lefts[l as usize] = true;
        rights[r as usize] = true;
        numbering[r as usize] = l;
    }
    Ok(())
}

// The right variables that are not linked get the numbers after the left's, in their order; how many variables the join then has.
fn number_rest(numbering: &mut [u32], v: u32, w: u32) -> u32
    requires { (v ≤ 1024) × ((w ≤ 1024) × (length numbering.old ≡ 1025)) }
    ensures { (links : List ℕ) → LinksPut links numbering.old → (result ≡ joined_variables v w links) × Numbered v w links numbering.new }
{
    let mut last = v;
    for i in 0..w as usize {
        if numbering[i + 1] == 0 {
            last += 1;
            numbering[i + 1] = last;
        }
    }
    last
}

// How many numbers the n clauses take, each with the 0 that ends it.
fn size_in(numbers: &[i32], n: usize) -> usize
    requires { total (clauses_in n numbers.now) + n ≤ length numbers.now }
    ensures { result ≡ total (clauses_in n numbers.now) + n }
{
    let mut left = n;
    for (i, x) in numbers.iter().enumerate() {
        if left == 0 {
            return i;
        }
        if *x == 0 {
            left -= 1;
        }
    }
    numbers.len()
}

// A literal of the right text as one of the join, its sign kept; 0, which ends a clause, stays.
fn renumber(x: i32, numbering: &[u32]) -> i32
    requires { (nat_abs x < 1025) × ((length numbering.now ≡ 1025) × (get_or numbering.now (nat_abs x) 0 < 65536)) }
    ensures { result ≡ numbered_by numbering.now x }
{
    let i = literal::var_of(x);
    let number = numbering[i] as i32;
    literal::signed_by(x, number)
}

// The first `size` of the right text's numbers, renumbered, go behind the left text's, which end at `end`.
fn append(numbers: &mut [i32], end: usize, others: &[i32], size: usize, numbering: &[u32])
    requires { Renumberable numbering.now others.now size end (length numbers.old) }
    ensures { numbers.new ≡ sets numbers.old end (map (numbered_by numbering.now) (take size others.now)) }
{
    for (i, x) in others[..size].iter().enumerate() {
        numbers[end + i] = renumber(*x, numbering);
    }
}

// The limits of a join: variables, clauses, literals as written.
fn within_limits(v: u32, n: u32, size: usize) -> bool
    ensures { result ≡ (leb v 1024 && (leb n 4096 && leb size 16384)) }
{
    v <= 1024 && n <= 4096 && size <= 16384
}

// Two texts that fit, by the numbers that were kept of them: the links, then the limits; within them the right text's numbers go behind
// the left's. Two texts whose clauses are within the limits have room there: 16,384 literals and 4,096 clause ends.
fn judge_linked(
    numbers: &mut [i32],
    v: u32,
    n: u32,
    others: &[i32],
    w: u32,
    m: u32,
    pairs: &[u32],
) -> Result<Header, Refusal>
    requires { Kept v n numbers.old × Kept w m others.now }
    ensures { Judged (judge_linked v n w m pairs.now (both_in v n pairs.now m numbers.old others.now))
        (both_in v n pairs.now m numbers.old others.now) result numbers.new }
{
    let mut numbering = [0u32; 1025];
    link(pairs, v, w, &mut numbering).map_err(Refusal::Link)?;
    let all = number_rest(&mut numbering, v, w);
    let end = size_in(numbers, n as usize);
    let size = size_in(others, m as usize);
    let count = n + m;
    if !within_limits(all, count, end + size - count as usize) {
        return Err(Refusal::Limit(0));
    }
    append(numbers, end, others, size, &numbering);
    Ok(Header {
        v: all,
        n: count,
        body: 0,
    })
}

// A left text that fits, by the numbers that were kept of it, and the right text.
fn judge_right(
    numbers: &mut [i32],
    v: u32,
    n: u32,
    right: &[u8],
    pairs: &[u32],
) -> Result<Header, Refusal>
    requires { Kept v n numbers.old }
    ensures { Judged (judge_both (fitting v n 0) (judge_text right.now) pairs.now (with_right v n numbers.old pairs.now right.now))
        (with_right v n numbers.old pairs.now right.now) result numbers.new }
{
    let mut others = [0i32; 20480];
    let header = dimacs::judge_text(right, &mut others)?;
    judge_linked(numbers, v, n, &others, header.v, header.n, pairs)
}

// The judgement of a join, and the clauses of one that fits in `numbers`, as `dimacs::judge_text` leaves those of a text. `pairs` has two
// numbers for each link, a left variable and a right one.
pub fn judge_join(
    left: &[u8],
    right: &[u8],
    pairs: &[u32],
    numbers: &mut [i32],
) -> Result<Header, Refusal>
    requires { 20480 ≤ length numbers.old }
    ensures { Judged (judge_join left.now right.now pairs.now) (join_clauses left.now right.now pairs.now) result numbers.new }
{
    let header = dimacs::judge_text(left, numbers)?;
    judge_right(numbers, header.v, header.n, right, pairs)
}
