// Hidden tautologies: the rule for two literals and figure 6 of 000 for more, over the slots of one clause.
#![tactic(auto)]

ghost use Rattle.std.specs.Prelude.{◌≡◌, List, [], map, ◌≤◌, length, ℤ};
ghost use Rattle.literal.specs.Literals.{slot_of, twin};
ghost use Rattle.stamp_columns.specs.Columns.{columns};
ghost use Rattle.hidden.specs.Hidden.{by_discovery, scan, figure6, transitive, hidden_pair, hidden_tautology};
ghost use Rattle.hidden_tautologies.specs.Judged.{Two, Scanned, Judged};

// Whether the stamps show that the edge from slot p to slot q is transitive: p holds q and is not its parent. Both slots have fresh stamps, as the shape rule gives them to a visit.
pub fn transitive(times: &[u32], links: &[i32], p: u32, q: u32) -> bool
    requires { Two times.now links.now p q }
    ensures { result ≡ transitive (columns times.now links.now) p q }
{
    hidden::holds(times, p, q) && stamp_columns::parent(links, q) != p
}

// Two literals, of slots a and b: whether one of the clause's two edges is transitive.
fn hidden_pair(times: &[u32], links: &[i32], a: u32, b: u32) -> bool
    requires { Two times.now links.now a b }
    ensures { result ≡ hidden_pair (columns times.now links.now) a b }
{
    transitive(times, links, literal::twin_of(a), b)
        || transitive(times, links, literal::twin_of(b), a)
}

// The scan, over the sorted literals and the sorted complements: it stops with its verdict. Where the complement does not hold the literal, the one of the two that begins first is passed:
// a complement that begins first holds none of the literals to come, and a literal that does is held by none of the complements to come.
fn scan(times: &[u32], pos: &[u32], neg: &[u32]) -> bool
    requires { Scanned times.now pos.now neg.now }
    ensures { (links : List ℤ) → result ≡ scan (columns times.now links) pos.now neg.now }
{
    let mut i = 0;
    let mut j = 0;
    let verdict = loop {
        if i >= pos.len() || j >= neg.len() {
            break false;
        }
        let p = pos[i];
        let q = neg[j];
        let lies = stamp_columns::compare(times, q, p);
        if lies.contains() {
            break true;
        }
        if lies.begins_first() {
            j += 1;
        } else {
            i += 1;
        }
    };
    verdict
}

// Figure 6 over the slots of a clause, which are left sorted. `twins` is as long, and only worked in.
fn figure_6(times: &[u32], slots: &mut [u32], twins: &mut [u32]) -> bool
    requires { Scanned times.now slots.old (map twin slots.old) × (length twins.old ≡ length slots.old) }
    ensures { (links : List ℤ) → (result ≡ figure6 (columns times.now links) slots.old) × (slots.new ≡ by_discovery (columns times.now links) slots.old) }
{
    clause_slots::twins_of(slots, twins);
    discovery_order::sort_slots(slots, times);
    discovery_order::sort_slots(twins, times);
    scan(times, slots, twins)
}

// Whether the clause, of two or more literals, is a hidden tautology; its slots are left sorted in `slots`. `slots` and `twins` are as long as the part. All its literals have fresh stamps: `sweep_visits::visit_clause` has it from the shape rule.
pub fn hidden_tautology(
    part: &[i32],
    times: &[u32],
    links: &[i32],
    slots: &mut [u32],
    twins: &mut [u32],
) -> bool
    requires { Judged times.now links.now part.now × (2 ≤ length part.now) × (length slots.old ≡ length part.now) × (length twins.old ≡ length part.now) }
    ensures { (result ≡ hidden_tautology (columns times.now links.now) (map slot_of part.now)) × (slots.new ≡ by_discovery (columns times.now []) (map slot_of part.now)) }
{
    clause_slots::slots_of(part, slots);
    if part.len() != 2 {
        return figure_6(times, slots, twins);
    }
    let verdict = hidden_pair(times, links, slots[0], slots[1]);
    discovery_order::sort_pair(slots, times);
    verdict
}
