// The table check of one node, as a value, with its children's nodes and the totals before it.
#![tactic(auto)]

ghost use Rattle.std.specs.Prelude.{◌≡◌, ◌+◌, eqb, leb};
ghost use Rattle.paper.specs.Table.{leaf_ok, dummy_ok, depth_ok, inner_ok, unit_ok, general_ok, node_ok};

use paper::{DEPTH_LIMIT, Kind, MUL_LIMIT, Node};

pub fn leaf_ok(n: Node, inputs: usize) -> bool
    ensures { result ≡ leaf_ok n inputs }
{
    (n.left == 0)
        & (n.lmul == 0)
        & (n.right == 0)
        & (n.rmul == 0)
        & (n.first == inputs)
        & (n.count == 0)
        & (n.depth == 1)
}

// A dummy's words are those of a leaf whose place is 0.
pub fn dummy_ok(n: Node) -> bool
    ensures { result ≡ dummy_ok n }
{
    leaf_ok(n, 0)
}

pub fn depth_ok(depth: usize, a: usize, b: usize) -> bool
    ensures { result ≡ depth_ok depth a b }
{
    let d = a.max(b);
    d < DEPTH_LIMIT && depth == d + 1
}

// a + b = sum, and first + count <= limit, with no sum made that could wrap.
pub fn sum_is(sum: usize, a: usize, b: usize) -> bool
    ensures { result ≡ eqb sum (a + b) }
{
    a <= sum && sum - a == b
}

pub fn fits_in(first: usize, count: usize, limit: usize) -> bool
    ensures { result ≡ leb (first + count) limit }
{
    first <= limit && count <= limit - first
}

pub fn inner_ok(n: Node, l: Node, r: Node, id: usize, cells: usize, limit: usize) -> bool
    ensures { result ≡ inner_ok n l r id cells limit }
{
    let fits = fits_in(n.first, n.count, limit);
    let deep = depth_ok(n.depth, l.depth, r.depth);
    (n.left < id) & (n.right < id) & (n.first == cells) & fits & deep
}

pub fn unit_ok(keys: &[u32], n: Node, l: Node, r: Node) -> bool
    ensures { result ≡ unit_ok keys.now n l r }
{
    let sum = sum_is(n.count, rows::con_len(l), rows::con_len(r));
    (n.lmul == 1) & (n.rmul == 1) & !l.is_general() & !r.is_general() & sum
        && rows::keys_count(keys, n.first, n.count)
}

pub fn general_ok(keys: &[u32], marks: &[u8], n: Node, l: Node, r: Node) -> bool
    ensures { result ≡ general_ok keys.now marks.now n l r }
{
    (1 <= n.lmul)
        & (n.lmul <= MUL_LIMIT)
        & (1 <= n.rmul)
        & (n.rmul <= MUL_LIMIT)
        & (l.is_general() | r.is_general() | (n.lmul != n.rmul))
        & (1 <= n.count)
        && rows::marks_low(marks, n.first, n.count) & keys::general_keys_ok(keys, n, l, r)
}

// One node, with its two children's nodes and the totals of inputs and cells before it.
pub fn node_ok(
    keys: &[u32],
    marks: &[u8],
    n: Node,
    l: Node,
    r: Node,
    id: usize,
    inputs: usize,
    cells: usize,
    limit: usize,
) -> bool
    ensures { result ≡ node_ok keys.now marks.now n l r id inputs cells limit }
{
    match n.kind_of() {
        Kind::Leaf => leaf_ok(n, inputs),
        Kind::Dummy => dummy_ok(n),
        Kind::Unit => inner_ok(n, l, r, id, cells, limit) && unit_ok(keys, n, l, r),
        Kind::General => inner_ok(n, l, r, id, cells, limit) && general_ok(keys, marks, n, l, r),
        Kind::Other => false,
    }
}
