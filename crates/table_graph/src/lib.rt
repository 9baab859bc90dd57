// The implication graph of the tables: the list of edges of the two-literal clauses, in clause order, and its compressed form.
#![tactic(auto)]

ghost use Rattle.std.specs.Prelude.{◌≡◌, [], ◌∷◌, ◌+◌, ◌*◌, ◌<◌, ◌≤◌, ℕ, length, get_or};
ghost use Rattle.std.proofs.lemmas.List.Edits.{sets};
ghost use Rattle.literal.specs.Literals.{twin};
ghost use Rattle.implications.specs.Edges.{Built};
ghost use Rattle.implications.specs.EdgeList.{froms_of, tos_of};
ghost use Rattle.implications.specs.Clauses.{froms, tos, implications};
ghost use Rattle.tables.specs.Clauses.{slots_from};
ghost use Rattle.table_graph.specs.Pairs.{ClausesInside, EdgeRoom};
ghost use Rattle.scc.specs.Groups.{least_mutual};

use implications::Edge;
use walk::{CompressedGraph, SlotStamp};

// Stores the edges of the clause (a ∨ b), twin a → b and twin b → a, at k and k + 1.
fn put_pair(a: u32, b: u32, k: usize, edges: &mut [Edge])
    requires { (a < 65536) × ((b < 65536) × ((k + 2 ≤ length (froms_of edges.old)) × (k + 2 ≤ length (tos_of edges.old)))) }
    ensures { (froms_of edges.new ≡ sets (froms_of edges.old) k (twin a ∷ twin b ∷ [])) × (tos_of edges.new ≡ sets (tos_of edges.old) k (b ∷ a ∷ [])) }
{
    edges[k] = Edge {
        from: literal::twin_of(a),
        to: b,
    };
    edges[k + 1] = Edge {
        from: literal::twin_of(b),
        to: a,
    };
}

// Lists the edges of the two-literal clauses among the first `n`, and returns how many there are. A clause of length 2 stands, since a dropped one has length 0. The clauses lie in the tables by the shape rule, and there is room for two edges of each.
pub fn list_pairs(n: usize, clauses: &[u32], literals: &[i32], edges: &mut [Edge]) -> usize
    requires clauses_inside { ClausesInside 1024 n clauses.now literals.now }
    requires n_in_bounds { (2 * n ≤ length (froms_of edges.old)) × (2 * n ≤ length (tos_of edges.old)) }
    ensures { (result ≡ length (froms (slots_from clauses.now literals.now n 0)))
        × ((froms_of edges.new ≡ sets (froms_of edges.old) 0 (froms (slots_from clauses.now literals.now n 0)))
        × (tos_of edges.new ≡ sets (tos_of edges.old) 0 (tos (slots_from clauses.now literals.now n 0)))) }
{
    let mut k = 0;
    for i in 0..n {
        let start = clauses[3 * i] as usize;
        let is_pair = clauses[3 * i + 1] == 2;
        if is_pair {
            let a = literal::slot_of(literals[start]);
            let b = literal::slot_of(literals[start + 1]);
            put_pair(a as u32, b as u32, k, edges);
            k += 2;
        }
    }
    k
}

// Builds the compressed graph of the two-literal clauses, and returns how many edges it has. The list `edges` is scratch.
fn build_graph(
    v: usize,
    n: usize,
    clauses: &[u32],
    literals: &[i32],
    edges: &mut [Edge],
    offsets: &mut [u32],
    targets: &mut [u32],
) -> usize
    requires { EdgeRoom v n clauses.now literals.now (froms_of edges.old) (tos_of edges.old) offsets.old targets.old }
    ensures { Built (froms (slots_from clauses.now literals.now n 0)) (tos (slots_from clauses.now literals.now n 0))
        offsets.new targets.new (2 * v) result }
{
    let k = list_pairs(n, clauses, literals, edges);
    implications::build(&edges[..k], offsets, targets);
    k
}

// The strongly connected components of the implication graph of the tables, each with its least slot as representative.

// Finds the components: for each slot the least slot that it reaches and that reaches it. `rep` has a place for each slot of the v variables, and the clauses lie in the tables by the shape rule.
pub fn representatives(v: usize, n: usize, clauses: &[u32], literals: &[i32], rep: &mut [u32])
    requires clauses_inside { ClausesInside v n clauses.now literals.now }
    requires rep_len { length rep.old ≡ 2 * v }
    ensures { (s : ℕ) → s < 2 * v →
        get_or rep.new s 0 ≡ least_mutual (implications (slots_from clauses.now literals.now n 0)) (2 * v) s }
{
    let slots = 2 * v;
    let mut edges = [Edge { from: 0, to: 0 }; 8192];
    let mut offsets = [0u32; 2049];
    let offsets = &mut offsets[..slots + 1];
    let mut targets = [0u32; 8192];
    let k = build_graph(v, n, clauses, literals, &mut edges, offsets, &mut targets);
    let graph = CompressedGraph {
        offsets,
        targets: &targets[..k],
    };
    let mut stamps = [SlotStamp {
        discovery: 0,
        finish: 0,
        parent: 0,
        start: 0,
    }; 2048];
    let mut order = [0u32; 2048];
    scc::groups(graph, &mut stamps[..slots], &mut order[..slots], rep);
}
