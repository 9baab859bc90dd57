// The stamps of a slot, as the walk's columns have them, and how the intervals of two slots lie.
#![tactic(auto)]

ghost use Rattle.std.specs.Prelude.{◌≡◌, [], ◌+◌, ◌*◌, ◌<◌, length};
ghost use Rattle.walk.specs.Forest.{discovery_at, finish_at, parent_at};
ghost use Rattle.stamp_columns.specs.Columns.{columns};
ghost use Rattle.stamp_columns.specs.Slots.{Child};
ghost use Rattle.stamp_columns.specs.Intervals.{interval_at, relation};

use intervals::{Interval, Relation};

// When slot s is discovered. The slot has times: it is one of the 2V of tables whose stamps are fresh.
pub fn discovery(times: &[u32], s: u32) -> u32
    requires { 2 * s + 1 < length times.now }
    ensures { result ≡ discovery_at (columns times.now []) s }
{
    times[2 * s as usize]
}

// When slot s is finished. The same holds for it.
fn finish(times: &[u32], s: u32) -> u32
    requires { 2 * s + 1 < length times.now }
    ensures { result ≡ finish_at (columns times.now []) s }
{
    times[2 * s as usize + 1]
}

// The interval of slot s, which has times.
pub fn interval(times: &[u32], s: u32) -> Interval
    requires { 2 * s + 1 < length times.now }
    ensures { result ≡ interval_at (columns times.now []) s }
{
    Interval {
        begin: discovery(times, s),
        end: finish(times, s),
    }
}

// How the interval of slot a lies to that of slot b. Both have times.
pub fn compare(times: &[u32], a: u32, b: u32) -> Relation
    requires { (2 * a + 1 < length times.now) × (2 * b + 1 < length times.now) }
    ensures { result ≡ relation (columns times.now []) a b }
{
    interval(times, a).compare(interval(times, b))
}

// The slot of the parent of slot s. Its link is a literal, as fresh stamps have it.
pub fn parent(links: &[i32], s: u32) -> u32
    requires { Child links.now s }
    ensures { result ≡ parent_at (columns [] links.now) s }
{
    literal::slot_of(links[2 * s as usize]) as u32
}
