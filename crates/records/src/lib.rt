// The table check over a lent row of node records, one record for each node. `check_records` walks the row; what it does
// with a record is in `begin`, `step` and `finish`, which know of one record and its children only.
#![tactic(auto)]

ghost use Rattle.std.specs.Prelude.{◌≡◌, ◌+◌, ◌<◌, ◌≤◌, length};
ghost use Rattle.records.specs.Table.{earlier_of, node_of, begin_of, passed_of, step_of, finish_of, records_ok};

use paper::{Counters, Node};

// The eight words of a node, as in the row of words.
#[derive(Clone, Copy)]
pub struct Record {
    pub kind: u32,
    pub left: u32,
    pub lmul: u32,
    pub right: u32,
    pub rmul: u32,
    pub first: u32,
    pub count: u32,
    pub depth: u32,
}

// What has been found so far: no record was refused, the leaves and the cells of the nodes before, and how many nodes
// are still to come.
#[derive(Clone, Copy)]
pub struct Seen {
    pub ok: bool,
    pub leaves: usize,
    pub cells: usize,
    pub todo: usize,
}

impl From<Record> for Node {
    ghost from_gives = { λ x n. n ≡ node_of x };

    fn from(x: Record) -> Node {
        Node {
            kind: x.kind as usize,
            left: x.left as usize,
            lmul: x.lmul as usize,
            right: x.right as usize,
            rmul: x.rmul as usize,
            first: x.first as usize,
            count: x.count as usize,
            depth: x.depth as usize,
        }
    }
}

// The child's id where it is smaller than the node's own, else the node's own: a place in the row in any case. A node
// whose child is not smaller is refused, whatever was read for it.
pub fn earlier(child: u32, id: usize) -> usize
    ensures { result ≡ earlier_of child id }
{
    id.min(child as usize)
}

// What needs no node.
pub fn begin(
    inputs: &[i32],
    keys: &[u32],
    lits: &[i32],
    marks: &[u8],
    clauses: &[i32],
    c: Counters,
) -> Seen
    ensures { result ≡ begin_of inputs.now keys.now lits.now marks.now clauses.now c }
{
    let fit = table::counters_ok(c, c.nodes, keys.len(), clauses.len());
    let ins = rows::inputs_ok(inputs, c.inputs, c.first);
    let cells = rows::cells_ok(lits, marks, c.cells, c.first, c.next);
    Seen {
        ok: fit & ins & cells,
        leaves: 0,
        cells: 0,
        todo: c.nodes,
    }
}

// A node that passed is counted.
fn passed(s: Seen, n: Node, nodes: usize, cells: usize) -> Seen
    requires { (s.leaves < nodes) × (s.cells + n.count ≤ cells) × (1 ≤ s.todo) }
    ensures { result ≡ passed_of s n }
{
    Seen {
        ok: true,
        leaves: s.leaves + table::leaf_step(n),
        cells: s.cells + n.count,
        todo: s.todo - 1,
    }
}

pub fn step(
    n: Record,
    l: Record,
    r: Record,
    id: usize,
    s: Seen,
    inputs: &[i32],
    keys: &[u32],
    lits: &[i32],
    marks: &[u8],
    clauses: &[i32],
    c: Counters,
) -> Seen
    ensures { result ≡ step_of n l r id s inputs.now keys.now lits.now marks.now clauses.now c }
{
    if !s.ok {
        return s;
    }
    if s.todo == 0 {
        return s;
    }
    let node = Node::from(n);
    let good = table::node_ok(
        keys,
        marks,
        node,
        Node::from(l),
        Node::from(r),
        id,
        s.leaves,
        s.cells,
        c.cells,
    );
    let few = s.leaves < c.nodes;
    let fits = table::fits_in(s.cells, node.count, c.cells);
    if !(good & few & fits) {
        return Seen {
            ok: false,
            leaves: s.leaves,
            cells: s.cells,
            todo: s.todo,
        };
    }
    passed(s, node, c.nodes, c.cells)
}

pub fn finish(
    s: Seen,
    inputs: &[i32],
    keys: &[u32],
    lits: &[i32],
    marks: &[u8],
    clauses: &[i32],
    c: Counters,
) -> bool
    ensures { result ≡ finish_of s inputs.now keys.now lits.now marks.now clauses.now c }
{
    s.ok & (s.todo == 0) & (s.leaves == c.inputs) & (s.cells == c.cells)
}

// The one function over a slice of structs. What it does with a record is in `step`.
pub fn check_records(
    nodes: &[Record],
    inputs: &[i32],
    keys: &[u32],
    lits: &[i32],
    marks: &[u8],
    clauses: &[i32],
    c: Counters,
) -> bool
    ensures { result ≡ records_ok nodes.now inputs.now keys.now lits.now marks.now clauses.now c }
{
    let mut s = begin(inputs, keys, lits, marks, clauses, c);
    for (i, n) in nodes.iter().enumerate() {
        let l = nodes[earlier(n.left, i)];
        let r = nodes[earlier(n.right, i)];
        s = step(*n, l, r, i, s, inputs, keys, lits, marks, clauses, c);
    }
    finish(s, inputs, keys, lits, marks, clauses, c)
}
