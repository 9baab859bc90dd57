// Stamp's core: the walk of the implication graph from an order of its slots, the test for a cycle, and the stamp records.
#![tactic(auto)]

ghost use Rattle.std.specs.Prelude.{◌≡◌, not, false, List, ◌++◌, map, ℕ, ◌+◌, ◌*◌, ◌<◌, ◌≤◌, length, get_or, drop, replicate};
ghost use Rattle.base.specs.Lists.{absent, interleave};
ghost use Rattle.literal.specs.Literals.{slot_of, lit_at};
ghost use Rattle.walk.specs.Walk.{stamp_all};
ghost use Rattle.walk.specs.Compressed.{adj_of, stamps as columns, Graph};
ghost use Rattle.walk.specs.Slots.{discoveries_of, finishes_of, parents_of, starts_of, stamps_of};
ghost use Rattle.scc.specs.Forward.{forward};
ghost use Rattle.implications.specs.Edges.{outs};
ghost use Rattle.implications.specs.EdgeList.{froms_of, tos_of};
ghost use Rattle.scc.specs.Groups.{blank};
ghost use Rattle.stamp_walk.specs.Stamping.{LiteralOrder, Finished, WalkableEdges, Columned, ColumnsHold, Proper, Ordered, WalkLeaves};

use implications::Edge;
use walk::{CompressedGraph, SlotStamp};

// The slots of a list of literals. `stamp::check_order` has seen that the order has literals in range alone.
pub fn list_slots(order: &[i32], slots: &mut [u32])
    requires { LiteralOrder order.now × (length slots.old ≡ length order.now) }
    ensures { slots.new ≡ map slot_of order.now }
{
    for (i, &l) in order.iter().enumerate() {
        slots[i] = literal::slot_of(l) as u32;
    }
}

// Whether an edge goes to a slot that does not finish before its own: then two different slots reach each other.
fn any_backward(edges: &[Edge], stamps: &[SlotStamp]) -> bool
    requires { Finished (froms_of edges.now) (tos_of edges.now) (finishes_of stamps.now) }
    ensures { (t : ℕ) (d p s : List ℕ) → result ≡ not (forward (columns t d (finishes_of stamps.now) p s) (froms_of edges.now) (tos_of edges.now)) }
{
    edges.iter().any(|edge| stamps[edge.from as usize].finish <= stamps[edge.to as usize].finish)
}

// The times of the records: the discovery and the finish of each slot. What stands behind them stays. The tables have the stated length, which the call's entry has checked.
pub fn copy_times(stamps: &[SlotStamp], times: &mut [u32])
    requires { 2 * length stamps.now ≤ length times.old }
    ensures { times.new ≡ interleave (discoveries_of stamps.now) (finishes_of stamps.now) ++ drop (2 * length stamps.now) times.old }
{
    for (s, stamp) in stamps.iter().enumerate() {
        times[2 * s] = stamp.discovery;
        times[2 * s + 1] = stamp.finish;
    }
}

// The links of the records: the parent and the start of each slot, as literals. What stands behind them stays. The tables have the stated length, which the call's entry has checked, and parents and starts are slots, as the walk leaves them.
pub fn copy_links(stamps: &[SlotStamp], links: &mut [i32])
    requires starts_len { 2 * length stamps.now ≤ length links.old }
    requires by_index { (s : ℕ) → s < length stamps.now → (get_or (parents_of stamps.now) s 0 < 2048) × (get_or (starts_of stamps.now) s 0 < 2048) }
    ensures { links.new ≡ interleave (map lit_at (parents_of stamps.now)) (map lit_at (starts_of stamps.now)) ++ drop (2 * length stamps.now) links.old }
{
    for (s, stamp) in stamps.iter().enumerate() {
        links[2 * s] = literal::lit_at(stamp.parent as usize);
        links[2 * s + 1] = literal::lit_at(stamp.start as usize);
    }
}

// Stamps every slot of `order`, whose roots a column marks: it starts at each root, then at each slot not yet entered. `roots` is scratch.
fn stamp_order(
    order: &[u32],
    root: &[bool],
    roots: &mut [u32],
    graph: CompressedGraph<'_>,
    stamps: &mut [SlotStamp],
) -> u32
    requires graph { Graph graph.offsets.now graph.targets.now (length stamps.old) }
    requires root_len { (length root.now ≡ length stamps.old) × (length order.now ≤ length roots.old) }
    requires by_index { (i : ℕ) → i < length order.now → get_or order.now i 0 < length stamps.old }
    ensures { stamps_of result stamps.new
        ≡ stamp_all (adj_of graph.entry.offsets.now graph.entry.targets.now) (λ q. get_or root.now q false) order.now
        (columns 0 (replicate (length stamps.old) 0) (finishes_of stamps.old) (parents_of stamps.old) (starts_of stamps.old)) }
{
    let k = implications::list_roots(order, root, roots);
    walk::clear(stamps);
    let t = walk::start_each(&roots[..k], 0, graph, stamps);
    walk::start_each(order, t, graph, stamps)
}

// Stamps every slot of `order` over a list of edges. All but the edges, the order and the stamps is scratch.
fn stamp_edges(
    edges: &[Edge],
    order: &[u32],
    offsets: &mut [u32],
    targets: &mut [u32],
    root: &mut [bool],
    roots: &mut [u32],
    stamps: &mut [SlotStamp],
)
    requires { WalkableEdges (length stamps.old) (froms_of edges.now) (tos_of edges.now) order.now offsets.old targets.old root.old roots.old }
    ensures { ColumnsHold
        (stamp_all (outs (froms_of edges.now) (tos_of edges.now)) (λ q. absent q (tos_of edges.now)) order.now
        (blank (length stamps.old) (finishes_of stamps.old) (parents_of stamps.old) (starts_of stamps.old)))
        (discoveries_of stamps.new) (finishes_of stamps.new) (parents_of stamps.new) (starts_of stamps.new) }
{
    implications::build(edges, offsets, targets);
    implications::mark_roots(edges, root);
    let graph = CompressedGraph {
        offsets,
        targets: &targets[..edges.len()],
    };
    stamp_order(order, root, roots, graph, stamps);
}

// Stamps every slot of `order` over the graph of the first n clauses; whether the graph is cyclic. The clauses lie in the tables by the shape rule, and `stamp::check_order` has seen a full order.
pub fn stamp_columns(
    v: usize,
    n: usize,
    clauses: &[u32],
    literals: &[i32],
    order: &[u32],
    stamps: &mut [SlotStamp],
) -> bool
    requires proper { Proper v n clauses.now literals.now × Ordered (2 * v) order.now }
    requires columned { Columned (2 * v) (discoveries_of stamps.old) (finishes_of stamps.old) (parents_of stamps.old) (starts_of stamps.old) }
    ensures { WalkLeaves v n clauses.now literals.now order.now (finishes_of stamps.old) (parents_of stamps.old) (starts_of stamps.old) result
        (discoveries_of stamps.new) (finishes_of stamps.new) (parents_of stamps.new) (starts_of stamps.new) }
{
    let slots = 2 * v;
    let mut edges = [Edge { from: 0, to: 0 }; 8192];
    let k = table_graph::list_pairs(n, clauses, literals, &mut edges);
    let edges = &edges[..k];
    let mut offsets = [0u32; 2049];
    let mut targets = [0u32; 8192];
    let mut root = [false; 2048];
    let mut roots = [0u32; 2048];
    stamp_edges(
        edges,
        order,
        &mut offsets[..slots + 1],
        &mut targets,
        &mut root[..slots],
        &mut roots,
        stamps,
    );
    any_backward(edges, stamps)
}
