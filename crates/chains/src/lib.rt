// Chains of literals along the parents (document 02, CR 7), and their text.
#![tactic(auto)]

ghost use Rattle.std.specs.Prelude.{◌≡◌, ◌+◌, ◌≤◌, ◌<◌, ◌^◌, length, drop};
ghost use Rattle.literal.specs.Literals.{slot_of};
ghost use Rattle.stamps.specs.Fresh.{parent_in};
ghost use Rattle.printing.specs.Printing.{clause_text, clauses_text};
ghost use Rattle.printing.specs.Stored.{Stored, Wrote};
ghost use Rattle.write.specs.Gathered.{gathered};
ghost use Rattle.chains.specs.Chains.{ends, chain_of, chain_at};
ghost use Rattle.chains.specs.Climbing.{Climbable, Parented, Chained};

use printing::Writer;

// The two ends of a chain: the interval of `top` holds that of `bottom`.
#[derive(Clone, Copy)]
pub struct Ends {
    pub top: i32,
    pub bottom: i32,
}

// The parent of a literal, which has stamps.
fn parent(links: &[i32], l: i32) -> i32
    requires { Parented links.now l }
    ensures { result ≡ parent_in links.now (slot_of l) }
{
    links[2 * literal::slot_of(l)]
}

// Puts the chain at the end of `row`, which has 2,048 places, from the last place up; returns where it begins. It ends: each parent's interval is wider by two times at least, and none is wider than that of `top`, which is around all of them.
fn climb(links: &[i32], top: i32, bottom: i32, row: &mut [i32]) -> usize
    requires { Climbable links.now (ends top bottom) × (length row.old ≡ 2048) }
    ensures { (result ≤ 2047) × (drop result row.new ≡ chain_of links.now (ends top bottom)) }
{
    let mut at = 2047;
    let mut l = bottom;
    row[at] = l;
    while l != top {
        l = parent(links, l);
        at -= 1;
        row[at] = l;
    }
    at
}

// The line of one chain. What is written is far shorter than 2^63 bytes.
fn put_chain(writer: &mut Writer<'_>, links: &[i32], top: i32, bottom: i32)
    requires { Climbable links.now (ends top bottom) × (writer.old.at + length (clause_text (chain_of links.now (ends top bottom))) < 2 ^ 63) }
    ensures { Wrote (clause_text (chain_of links.now (ends top bottom))) writer.old writer.new }
{
    let mut row = [0i32; 2048];
    let begin = climb(links, top, bottom, &mut row);
    writer.put_clause(&row[begin..]);
}

// The lines of n chains, whose ends stand in `ends` one pair behind the other; returns how long they are. On an empty `out` they are only measured.
pub fn put_chains(out: &mut [u8], links: &[i32], ends: &[i32], n: usize) -> usize
    requires { Chained links.now ends.now n }
    ensures { Stored (clauses_text (gathered (chain_at links.now ends.now) n 0)) 0 out.old out.new result }
{
    let mut writer = Writer::new(out);
    for k in 0..n {
        put_chain(&mut writer, links, ends[2 * k], ends[2 * k + 1]);
    }
    writer.at
}
