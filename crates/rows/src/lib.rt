// Total reads of the rows: past a row's end everything reads as 0. And the tests of one row of the table.
#![tactic(auto)]

ghost use Rattle.std.specs.Prelude.{◌≡◌, nat_abs};
ghost use Prim.Native.Nat.{ℕ, ◌+◌, ◌*◌, ◌<◌, ◌≤◌, max};
ghost use Rattle.paper.specs.Limits.{node_words};
ghost use Rattle.paper.specs.Rows.{word_from, node_at, value_count, value_at, con_len, is_neg, lit_ok, cell_ok, inputs_ok, cells_ok, marks_low, keys_count};
ghost use Rattle.paper.specs.Grow.{same_lit};

use paper::{NODE_WORDS, Node};

// The word at base + i, or 0 past the end; the sum is made only where it is below the length.
pub fn word_from(row: &[u32], base: usize, i: usize) -> usize
    ensures { (result ≡ word_from row.now base i) × (result < 4294967296) }
{
    if base <= row.len() {
        if i < row.len() - base {
            row[base + i] as usize
        } else {
            0
        }
    } else {
        0
    }
}

// Where node id starts; for an id past the row, a place past the row.
fn base_of(nodes: &[u32], id: usize) -> usize
    ensures { (k : ℕ) → word_from nodes.now result k ≡ word_from nodes.now (id * node_words) k }
{
    if id <= nodes.len() / NODE_WORDS {
        id * NODE_WORDS
    } else {
        nodes.len()
    }
}

// A node whose words are not all in the row.
fn node_past(nodes: &[u32], id: usize) -> Node
    ensures { result ≡ node_at nodes.now id }
{
    let base = base_of(nodes, id);
    Node {
        kind: word_from(nodes, base, 0),
        left: word_from(nodes, base, 1),
        lmul: word_from(nodes, base, 2),
        right: word_from(nodes, base, 3),
        rmul: word_from(nodes, base, 4),
        first: word_from(nodes, base, 5),
        count: word_from(nodes, base, 6),
        depth: word_from(nodes, base, 7),
    }
}

pub fn node_at(nodes: &[u32], id: usize) -> Node
    ensures { result ≡ node_at nodes.now id }
{
    if nodes.len() / NODE_WORDS <= id {
        return node_past(nodes, id);
    }
    let at = id * NODE_WORDS;
    Node {
        kind: nodes[at] as usize,
        left: nodes[at + 1] as usize,
        lmul: nodes[at + 2] as usize,
        right: nodes[at + 3] as usize,
        rmul: nodes[at + 4] as usize,
        first: nodes[at + 5] as usize,
        count: nodes[at + 6] as usize,
        depth: nodes[at + 7] as usize,
    }
}

// How many values a node has, and the value at an index: a leaf has the value 1, a dummy none, an inner node its keys.
pub fn value_count(n: Node) -> usize
    ensures { result ≡ value_count n }
{
    if n.is_leaf() {
        1
    } else if n.is_dummy() {
        0
    } else {
        n.count
    }
}

// What a parent sees of a child: as many outputs as it has values.
pub fn con_len(child: Node) -> usize
    ensures { result ≡ con_len child }
{
    value_count(child)
}

pub fn value_at(keys: &[u32], n: Node, i: usize) -> usize
    ensures { (result ≡ value_at keys.now n i) × (result < 4294967296) }
{
    if n.is_leaf() {
        1
    } else {
        word_from(keys, n.first, i)
    }
}

// The variable of a literal, and its sign.
pub fn variable(x: i32) -> u32
    ensures { result ≡ nat_abs x }
{
    x.unsigned_abs()
}

pub fn is_negative(x: i32) -> bool
    ensures { result ≡ is_neg x }
{
    x.is_negative()
}

pub fn literal_ok(x: i32, f: usize) -> bool
    ensures { result ≡ lit_ok x f }
{
    let v = variable(x) as usize;
    (v != 0) & (v < f)
}

pub fn same_literal(x: i32, y: i32) -> bool
    ensures { result ≡ same_lit x y }
{
    x == y
}

pub fn cell_ok(lit: i32, mark: u8, f: usize, next: usize) -> bool
    ensures { result ≡ cell_ok lit mark f next }
{
    let v = variable(lit) as usize;
    let m = mark as usize;
    (m <= 3) & ((m == 0) | (v != 0)) & ((v == 0) | (!is_negative(lit) & (f <= v) & (v < next)))
}

// Each input literal is nonzero with its variable below f. No test ends this loop or the next two: the machine then makes several at once.
pub fn inputs_ok(inputs: &[i32], n: usize, f: usize) -> bool
    ensures { result ≡ inputs_ok inputs.now n f }
{
    if inputs.len() < n {
        return false;
    }
    let mut ok = true;
    for x in &inputs[..n] {
        ok = ok & literal_ok(*x, f);
    }
    ok
}

pub fn cells_ok(lits: &[i32], marks: &[u8], n: usize, f: usize, next: usize) -> bool
    ensures { result ≡ cells_ok lits.now marks.now n f next }
{
    if lits.len() < n {
        return false;
    }
    if marks.len() < n {
        return false;
    }
    let mut ok = true;
    for (x, m) in lits[..n].iter().zip(&marks[..n]) {
        ok = ok & cell_ok(*x, *m, f, next);
    }
    ok
}

// The marks from first on, count of them, are at most 1.
pub fn marks_low(marks: &[u8], first: usize, count: usize) -> bool
    ensures { result ≡ marks_low marks.now first count }
{
    if marks.len() < first {
        return false;
    }
    if marks.len() - first < count {
        return false;
    }
    let mut ok = true;
    for m in &marks[first..first + count] {
        ok = ok & (*m <= 1);
    }
    ok
}

// The keys from first on, count of them, are 1, 2, ..
pub fn keys_count(keys: &[u32], first: usize, count: usize) -> bool
    ensures { result ≡ keys_count keys.now first count }
{
    (0..count).all(|i| word_from(keys, first, i) == i + 1)
}
