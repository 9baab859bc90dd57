// Stamp: a depth-first walk of a graph in compressed form, as two functions in a cycle.
#![tactic(auto)]

ghost use Rattle.std.specs.Prelude.{◌≡◌, ℕ, ◌+◌, ◌<◌, ◌≤◌, length, get_or, replicate};
ghost use Rattle.walk.specs.Walk.{enters, start_walk, edge, edges, fresh};
ghost use Rattle.walk.specs.Compressed.{adj_of, Graph, Columns};
ghost use Rattle.walk.specs.Slots.{discoveries_of, finishes_of, parents_of, starts_of, stamps_of};

// A graph in compressed form: slot s has edges to the targets from offset s up to offset s + 1.
#[derive(Clone, Copy)]
pub struct CompressedGraph<'a> {
    pub offsets: &'a [u32],
    pub targets: &'a [u32],
}

impl<'a> CompressedGraph<'a> {
    // The slots that `slot` has edges to, in order.
    fn edges(self, slot: usize) -> &'a [u32]
        requires slot_in_bounds { slot + 1 < length self.offsets.now }
        requires rising { get_or self.offsets.now slot 0 ≤ get_or self.offsets.now (slot + 1) 0 }
        requires inside { get_or self.offsets.now (slot + 1) 0 ≤ length self.targets.now }
        ensures { result.now ≡ adj_of self.entry.offsets.now self.entry.targets.now slot }
    {
        let begin = self.offsets[slot] as usize;
        let end = self.offsets[slot + 1] as usize;
        &self.targets[begin..end]
    }
}

// What the walk says of a slot: when it was discovered and finished, from which slot it was entered, and at which slot its tree starts. A slot is not yet entered while its discovery is 0.
#[derive(Clone, Copy)]
pub struct SlotStamp {
    pub discovery: u32,
    pub finish: u32,
    pub parent: u32,
    pub start: u32,
}

// Enters `slot`, coming from `parent`, in the tree that starts at `start`: stamps it, walks its edges, and returns the time.
#[cycle(enter_walk_edges)]
fn enter(
    slot: usize,
    parent: u32,
    start: u32,
    time: u32,
    graph: CompressedGraph<'_>,
    stamps: &mut [SlotStamp],
) -> u32
    requires graph { Graph graph.offsets.now graph.targets.now (length stamps.old) }
    requires columns { Columns (length stamps.old) (stamps_of time stamps.old) }
    requires slot_in_bounds { (slot < length stamps.old) × (get_or (discoveries_of stamps.old) slot 0 ≡ 0) }
    ensures { (n : ℕ) → fresh (discoveries_of stamps.old) ≤ n →
        stamps_of result stamps.new
        ≡ enters n (adj_of graph.entry.offsets.now graph.entry.targets.now) start parent slot (stamps_of time stamps.old) }
{
    let discovered = time + 1;
    let stamp = &mut stamps[slot];
    stamp.discovery = discovered;
    stamp.parent = parent;
    stamp.start = start;
    let finished = walk_edges(slot, start, discovered, graph, stamps) + 1;
    stamps[slot].finish = finished;
    finished
}

// Walks the edges of `slot`, entering each literal that is not yet entered, and returns the time.
#[cycle(enter_walk_edges)]
fn walk_edges(
    slot: usize,
    start: u32,
    time: u32,
    graph: CompressedGraph<'_>,
    stamps: &mut [SlotStamp],
) -> u32
    requires graph { Graph graph.offsets.now graph.targets.now (length stamps.old) }
    requires columns { Columns (length stamps.old) (stamps_of time stamps.old) }
    requires slot_in_bounds { slot < length stamps.old }
    ensures { (n : ℕ) → fresh (discoveries_of stamps.old) ≤ n →
        stamps_of result stamps.new
        ≡ edges (λ q. enters n (adj_of graph.entry.offsets.now graph.entry.targets.now) start slot q)
        (adj_of graph.entry.offsets.now graph.entry.targets.now slot)
        (stamps_of time stamps.old) }
{
    let mut t = time;
    for &q in graph.edges(slot) {
        let is_new = stamps[q as usize].discovery == 0;
        if is_new {
            t = enter(q as usize, slot as u32, start, t, graph, stamps);
        }
    }
    t
}

// Starts at `slot`, if it is not yet entered, and returns the time.
fn start_at(slot: u32, time: u32, graph: CompressedGraph<'_>, stamps: &mut [SlotStamp]) -> u32
    requires graph { Graph graph.offsets.now graph.targets.now (length stamps.old) }
    requires columns { Columns (length stamps.old) (stamps_of time stamps.old) }
    requires slot_in_bounds { slot < length stamps.old }
    ensures { (n : ℕ) → fresh (discoveries_of stamps.old) ≤ n →
        stamps_of result stamps.new
        ≡ edge (start_walk n (adj_of graph.entry.offsets.now graph.entry.targets.now)) slot (stamps_of time stamps.old) }
{
    let s = slot as usize;
    if stamps[s].discovery == 0 {
        enter(s, slot, slot, time, graph, stamps)
    } else {
        time
    }
}

// Starts at each slot of `order` that is not yet entered, in order. The graph is compressed by `implications::build`, there is a stamp for each slot, and the order has slots alone.
pub fn start_each(
    order: &[u32],
    time: u32,
    graph: CompressedGraph<'_>,
    stamps: &mut [SlotStamp],
) -> u32
    requires graph { Graph graph.offsets.now graph.targets.now (length stamps.old) }
    requires columns { Columns (length stamps.old) (stamps_of time stamps.old) }
    requires by_index { (i : ℕ) → i < length order.now → get_or order.now i 0 < length stamps.old }
    ensures { (n : ℕ) → fresh (discoveries_of stamps.old) ≤ n →
        stamps_of result stamps.new
        ≡ edges (start_walk n (adj_of graph.entry.offsets.now graph.entry.targets.now)) order.now (stamps_of time stamps.old) }
{
    let mut t = time;
    for &slot in order {
        t = start_at(slot, t, graph, stamps);
    }
    t
}

// Makes every slot one that is not yet entered.
pub fn clear(stamps: &mut [SlotStamp])
    ensures discoveries { discoveries_of stamps.new ≡ replicate (length stamps.old) 0 }
    ensures finishes { finishes_of stamps.new ≡ finishes_of stamps.old }
    ensures parents { parents_of stamps.new ≡ parents_of stamps.old }
    ensures starts { starts_of stamps.new ≡ starts_of stamps.old }
{
    for stamp in stamps.iter_mut() {
        stamp.discovery = 0;
    }
}
