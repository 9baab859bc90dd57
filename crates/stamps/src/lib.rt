// Fresh stamps: a check in linear time of the rule that specs/Fresh.antt states.
#![tactic(auto)]

ghost use Rattle.std.specs.Prelude.{◌≡◌, true, false, List, ℕ, ◌+◌, ◌*◌, ◌≤◌, ◌<◌, length, replicate};
ghost use Rattle.base.specs.Decide.{Decides};
ghost use Rattle.stamps.specs.Fresh.{Times, FreshStamps};
ghost use Rattle.stamps.specs.Index.{Indexed, Filled};

// Enters the number of each of the first n places, from 1, under the time that stands there. No, where a time is not 1 to n or stands twice.
fn index_times(times: &[u32], n: usize, index: &mut [u32]) -> bool
    requires { (n ≤ length times.now) × (n ≤ 4096) × (index.old ≡ replicate n 0) }
    ensures { (result ≡ true → Indexed n times.now index.new) × (result ≡ false → Times n times.now → ⊥) }
{
    for (k, &time) in times[..n].iter().enumerate() {
        let t = time as usize;
        if t == 0 || n < t || index[t - 1] != 0 {
            return false;
        }
        index[t - 1] = k as u32 + 1;
    }
    true
}

// Goes through the times with the literal that is open and its start, if one is. A slot is entered under the open literal, and left while it is the open one.
fn scan_times(links: &[i32], index: &[u32], v: u32) -> bool
    requires { (v ≤ 1024) × (4 * v ≤ length links.now) × (length index.now ≡ 4 * v) × Filled (4 * v) index.now }
    ensures { (times : List ℕ) → Indexed (4 * v) times index.now → Decides result (FreshStamps v times links.now) }
{
    let mut current: Option<(i32, i32)> = None;
    for &place in index {
        let k = place as usize - 1;
        let l = literal::lit_at(k / 2);
        if k % 2 == 0 {
            let (parent, start) = current.unwrap_or((l, l));
            if links[k] != parent || links[k + 1] != start {
                return false;
            }
            current = Some((l, start));
        } else {
            let Some((open, start)) = current else {
                return false;
            };
            if open != l {
                return false;
            }
            let parent = links[k - 1];
            current = if parent == l {
                None
            } else {
                Some((parent, start))
            };
        }
    }
    true
}

// The check, with an empty index of the times to work on.
fn stamps_by(times: &[u32], links: &[i32], v: u32, index: &mut [u32]) -> bool
    requires { (v ≤ 1024) × (4 * v ≤ length times.now) × (4 * v ≤ length links.now) × (index.old ≡ replicate (4 * v) 0) }
    ensures { Decides result (FreshStamps v times.now links.now) }
{
    index_times(times, 4 * v as usize, index) && scan_times(links, index, v)
}

// Whether the stamps of v variables are as the rule has them. The tables have the stated length and V is within its limit: `shape::fresh_ok` asks only then.
pub fn stamps_ok(times: &[u32], links: &[i32], v: u32) -> bool
    requires { (v ≤ 1024) × (4 * v ≤ length times.now) × (4 * v ≤ length links.now) }
    ensures { Decides result (FreshStamps v times.now links.now) }
{
    let n = 4 * v as usize;
    let mut index = [0u32; 4096];
    stamps_by(times, links, v, &mut index[..n])
}
