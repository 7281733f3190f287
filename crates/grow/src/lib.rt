// The calls that begin a table and add a leaf or the dummy. Each decides first (crate choose), over rows that it only reads, and then writes.
#![tactic(auto)]

ghost use Rattle.std.specs.Prelude.{◌≡◌, ◌+◌, ◌*◌, ◌≤◌, length};
ghost use Rattle.paper.specs.Limits.{node_words};
ghost use Rattle.paper.specs.Grow.{fresh_of, put_node, leaf_node, dummy_node, leaf_plan, leaf_added, leaf_nodes, leaf_inputs, dummy_plan, dummy_added, dummy_nodes};
ghost use Rattle.grow.specs.Small.{Small};

pub use choose::room_for_node;
use choose::{dummy_plan, leaf_plan};
use paper::{Added, Counters, Kind, NODE_WORDS, Node, Refusal};

#[tactic(auto, unfolding(paper::specs::Grow::fresh_of))]
pub fn fresh(first: usize, last: usize) -> Result<Counters, Refusal>
    ensures { result ≡ fresh_of first last }
{
    if table::range_ok(first, first, last) {
        Ok(Counters {
            first,
            next: first,
            last,
            nodes: 0,
            inputs: 0,
            cells: 0,
            words: 0,
        })
    } else {
        Err(Refusal::BadVariables)
    }
}

#[tactic(auto, unfolding(paper::specs::Grow::put_node))]
pub fn put_node(nodes: &mut [u32], id: usize, n: Node)
    requires { (id * node_words + node_words ≤ length nodes.old) × Small n }
    ensures { nodes.new ≡ put_node nodes.old id n }
{
    let base = id * NODE_WORDS;
    nodes[base] = n.kind as u32;
    nodes[base + 1] = n.left as u32;
    nodes[base + 2] = n.lmul as u32;
    nodes[base + 3] = n.right as u32;
    nodes[base + 4] = n.rmul as u32;
    nodes[base + 5] = n.first as u32;
    nodes[base + 6] = n.count as u32;
    nodes[base + 7] = n.depth as u32;
}

pub fn leaf_node(place: usize) -> Node
    ensures { result ≡ leaf_node place }
{
    Node {
        kind: Kind::Leaf as usize,
        left: 0,
        lmul: 0,
        right: 0,
        rmul: 0,
        first: place,
        count: 0,
        depth: 1,
    }
}

pub fn dummy_node() -> Node
    ensures { result ≡ dummy_node }
{
    Node {
        kind: Kind::Dummy as usize,
        left: 0,
        lmul: 0,
        right: 0,
        rmul: 0,
        first: 0,
        count: 0,
        depth: 1,
    }
}

#[tactic(auto, using(crate::proofs::Choose::leaf_rests))]
pub fn leaf(
    nodes: &mut [u32],
    inputs: &mut [i32],
    keys: &[u32],
    lits: &[i32],
    marks: &[u8],
    clauses: usize,
    c: Counters,
    x: i32,
) -> Result<Added, Refusal>
    ensures { (result ≡ leaf_added (leaf_plan nodes.old inputs.old keys.now lits.now marks.now clauses c x) c)
        × (nodes.new ≡ leaf_nodes (leaf_plan nodes.old inputs.old keys.now lits.now marks.now clauses c x) nodes.old c)
        × (inputs.new ≡ leaf_inputs (leaf_plan nodes.old inputs.old keys.now lits.now marks.now clauses c x) inputs.old c x) }
{
    match leaf_plan(nodes, inputs, keys, lits, marks, clauses, c, x)? {
        Some(id) => Ok(Added { id, counters: c }),
        None => {
            inputs[c.inputs] = x;
            put_node(nodes, c.nodes, leaf_node(c.inputs));
            Ok(Added {
                id: c.nodes,
                counters: Counters {
                    nodes: c.nodes + 1,
                    inputs: c.inputs + 1,
                    ..c
                },
            })
        }
    }
}

#[tactic(auto, using(crate::proofs::Choose::dummy_rests))]
pub fn dummy(
    nodes: &mut [u32],
    inputs: &[i32],
    keys: &[u32],
    lits: &[i32],
    marks: &[u8],
    clauses: usize,
    c: Counters,
) -> Result<Added, Refusal>
    ensures { (result ≡ dummy_added (dummy_plan nodes.old inputs.now keys.now lits.now marks.now clauses c) c)
        × (nodes.new ≡ dummy_nodes (dummy_plan nodes.old inputs.now keys.now lits.now marks.now clauses c) nodes.old c) }
{
    match dummy_plan(nodes, inputs, keys, lits, marks, clauses, c)? {
        Some(id) => Ok(Added { id, counters: c }),
        None => {
            put_node(nodes, c.nodes, dummy_node());
            Ok(Added {
                id: c.nodes,
                counters: Counters {
                    nodes: c.nodes + 1,
                    ..c
                },
            })
        }
    }
}
