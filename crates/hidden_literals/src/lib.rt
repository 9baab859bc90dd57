// Hidden literals: figure 5 of 000 over the slots of one clause.
#![tactic(auto)]

ghost use Rattle.std.specs.Prelude.{◌≡◌, List, [], ◌++◌, map, ◌+◌, ◌*◌, ◌-◌, ◌<◌, ◌≤◌, length, drop, take, replicate, ℤ, pos};
ghost use Rattle.literal.specs.Literals.{slot_of, twin};
ghost use Rattle.stamp_columns.specs.Columns.{columns};
ghost use Rattle.hidden.specs.Hidden.{by_discovery, shorten};
ghost use Rattle.clause_slots.specs.Stamped.{StampedSlots, StampedClause};
ghost use Rattle.hidden_literals.specs.Sorted.{Searched, Sorted};
ghost use Rattle.hidden_literals.specs.Figures.{inner, outermost, among, kept_by};
ghost use Rattle.stamp_columns.specs.Slots.{Slots};

use intervals::Interval;

// Lines 1 to 4, over slots by rising discovery, from the last to the first: one that holds the slot that stayed last goes. What stays moves to the end; returns where it starts.
fn keep_inner(slots: &mut [u32], times: &[u32]) -> usize
    requires { Slots times.now slots.old }
    ensures { (result ≤ length slots.old) × ((links : List ℤ) → drop result slots.new ≡ inner (columns times.now links) slots.old) }
{
    let mut last = Interval {
        begin: u32::MAX,
        end: u32::MAX,
    };
    let mut n = slots.len();
    for i in (0..slots.len()).rev() {
        let x = slots[i];
        let t = stamp_columns::interval(times, x);
        if !t.compare(last).wider() {
            n -= 1;
            slots[n] = x;
            last = t;
        }
    }
    n
}

// Lines 5 to 8, over slots by rising discovery, from the first to the last: one that is held by the slot that stayed last goes. What stays moves to the front; returns how many.
fn keep_outer(slots: &mut [u32], times: &[u32]) -> usize
    requires { Slots times.now slots.old }
    ensures { (result ≤ length slots.old) × ((links : List ℤ) → take result slots.new ≡ outermost (columns times.now links) slots.old) }
{
    let mut last = Interval { begin: 0, end: 0 };
    let mut n = 0;
    for i in 0..slots.len() {
        let x = slots[i];
        let t = stamp_columns::interval(times, x);
        if !last.compare(t).wider() {
            slots[n] = x;
            n += 1;
            last = t;
        }
    }
    n
}

// Whether s is among slots by rising discovery: the half that cannot hold it is left out, until none is left.
fn has_slot(slots: &[u32], times: &[u32], s: u32) -> bool
    requires { Slots times.now slots.now × (2 * s + 1 < length times.now) × Searched times.now slots.now s }
    ensures { result ≡ among s slots.now }
{
    let t = stamp_columns::interval(times, s);
    let mut low = 0;
    let mut high = slots.len();
    while low < high {
        let mid = low + (high - low) / 2;
        let m = slots[mid];
        if m == s {
            return true;
        }
        if stamp_columns::interval(times, m).compare(t).begins_first() {
            low = mid + 1;
        } else {
            high = mid;
        }
    }
    false
}

// Keeps the literals whose complement is among the slots, in order at the front, with 0 behind; how many stay.
fn keep_part(part: &mut [i32], slots: &[u32], times: &[u32]) -> usize
    requires { Sorted times.now slots.now part.old }
    ensures { (result ≡ length (kept_by slots.now part.old))
        × (part.new ≡ kept_by slots.now part.old ++ replicate (length part.old - length (kept_by slots.now part.old)) (pos 0)) }
{
    let mut n = 0;
    for i in 0..part.len() {
        let l = part[i];
        let s = literal::slot_of(-l) as u32;
        if has_slot(slots, times, s) {
            part[n] = l;
            n += 1;
        }
    }
    literal::zero_from(part, n);
    n
}

// The complements of slots, by rising discovery, without those that another holds: they are put in front; returns how many.
fn outer_twins(slots: &[u32], twins: &mut [u32], times: &[u32]) -> usize
    requires { StampedSlots times.now slots.now × (length twins.old ≡ length slots.now) }
    ensures { (result ≤ length slots.now) × (take result twins.new ≡ outermost (columns times.now []) (by_discovery (columns times.now []) (map twin slots.now))) }
{
    clause_slots::twins_of(slots, twins);
    discovery_order::sort_slots(twins, times);
    keep_outer(twins, times)
}

// Figure 5 on a part whose slots are given by rising discovery, with room for as many; how many literals stay. The clause has fresh stamps as `hidden_tautology` asks, which leaves its slots sorted.
pub fn shorten_part(part: &mut [i32], slots: &mut [u32], twins: &mut [u32], times: &[u32]) -> usize
    requires { StampedClause times.now part.old × (slots.old ≡ by_discovery (columns times.now []) (map slot_of part.old)) × (length twins.old ≡ length part.old) }
    ensures { (result ≡ length (shorten slot_of (columns times.now []) part.old))
        × (part.new ≡ shorten slot_of (columns times.now []) part.old ++ replicate (length part.old - length (shorten slot_of (columns times.now []) part.old)) (pos 0)) }
{
    let first = keep_inner(slots, times);
    let m = slots.len() - first;
    let n = outer_twins(&slots[first..], &mut twins[..m], times);
    keep_part(part, &twins[..n], times)
}
