// The outputs of a node by their values: the lookup of a key, the ways to make up a value from the outputs of two children, and what is to
// be done for an output.
#![tactic(auto)]

ghost use Rattle.std.specs.Prelude.{◌≡◌, true, false, ℕ, ◌-◌, ◌*◌, ◌<◌, ◌≤◌, ◌^◌, length};
ghost use Rattle.paper.specs.Rows.{node_at, con_len};
ghost use Rattle.paper.specs.Weighted.{key_from, output_of, share_of, joined, way_two, way_of, job_of};
ghost use Rattle.find.specs.Ways.{Rising, Sorted, Muls, Place, Cut, Pairing};

use keys::Child;
use paper::{Job, Kind, Node, Span, Way};
use rows::{con_len, node_at, value_at, value_count, word_from};

// The first place below `to` at which `low` does not hold, or `to`, where `low` holds up to a place and from it on no more: each step halves
// what is left. The row's own `partition_point` does not serve: a leaf's value is in no row, and a key past the row's end reads as 0.
fn first_not<F: Fn(usize) -> bool>(to: usize, low: F) -> usize
    requires { F.IsAlwaysCallable low }
    ensures bound { result ≤ to }
    ensures before { 0 < result → F.post low (result - 1) true }
    ensures after { result < to → F.post low result false }
{
    let mut lo = 0;
    let mut hi = to;
    while lo < hi {
        let mid = lo + (hi - lo) / 2;
        if low(mid) {
            lo = mid + 1;
        } else {
            hi = mid;
        }
    }
    lo
}

// "search the keys for v": the place of v among count keys behind first, which ascend.
pub fn find_key(keys: &[u32], first: usize, count: usize, v: usize) -> Option<usize>
    requires { Rising keys.now first count }
    ensures { result ≡ key_from keys.now first v count 0 }
{
    let at = first_not(count, |i| word_from(keys, first, i) < v);
    if at < count && word_from(keys, first, at) == v {
        return Some(at);
    }
    None
}

// What the keys must be, each lookup asks itself (`Sorted`): crate sum and the crates above it ask for single outputs of a tree's nodes, and a
// struct of the row and a node would be made anew at each question.

// The output of value v: a leaf and a unit have the values from 1 on, a general node its keys.
#[tactic(auto, unfolding(paper::specs::Weighted::output_of))]
pub fn output_of(keys: &[u32], n: Node, v: usize) -> Option<usize>
    requires { Sorted keys.now n }
    ensures { result ≡ output_of keys.now n v }
{
    if n.is_general() {
        return find_key(keys, n.first, n.count, v);
    }
    if v == 0 {
        return None;
    }
    if value_count(n) < v {
        return None;
    }
    Some(v - 1)
}

// The place, counted from 1, of the output that times m is v; 0 where there is none.
#[tactic(auto, unfolding(paper::specs::Weighted::share_of))]
pub fn share_of(keys: &[u32], n: Node, m: usize, v: usize) -> usize
    requires le_m { 1 ≤ m }
    requires sorted { Sorted keys.now n }
    ensures { result ≡ share_of keys.now n m v }
{
    if v % m == 0 {
        let Some(j) = output_of(keys, n, v / m) else {
            return 0;
        };
        return j + 1;
    }
    0
}

// Output x of the left child with y of the right one, if there is a y.
fn join(x: usize, y: usize) -> Way
    ensures { result ≡ joined x y }
{
    if y == 0 {
        return Way { x: 0, y: 0 };
    }
    Way { x, y }
}

#[tactic(auto, unfolding(paper::specs::Weighted::way_two))]
fn way_two(keys: &[u32], n: Node, l: Node, r: Node, v: usize, p: usize) -> Way
    requires muls { Muls n }
    requires sorted { Sorted keys.now l × Sorted keys.now r }
    ensures { result ≡ way_two keys.now n l r v p }
{
    let a = con_len(l);
    if p < a {
        let got = n.lmul * value_at(keys, l, p);
        let below = got < v;
        if below {
            let y = share_of(keys, r, n.rmul, v - got);
            return join(p + 1, y);
        }
        return Way { x: 0, y: 0 };
    }
    if p == a {
        let x = share_of(keys, l, n.lmul, v);
        return Way { x, y: 0 };
    }
    let y = share_of(keys, r, n.rmul, v);
    Way { x: 0, y }
}

// The p-th way to make up v at node id: the pairs by the left output, then left alone, then right alone.
pub fn way_at(nodes: &[u32], keys: &[u32], id: usize, v: usize, p: usize) -> Way
    requires muls { Muls (node_at nodes.now id) }
    requires sorted { Sorted keys.now (node_at nodes.now (node_at nodes.now id).left) × Sorted keys.now (node_at nodes.now (node_at nodes.now id).right) }
    ensures { result ≡ way_of nodes.now keys.now id v p }
{
    let n = node_at(nodes, id);
    let l = node_at(nodes, n.left);
    let r = node_at(nodes, n.right);
    way_two(keys, n, l, r, v, p)
}

// How many outputs the left child has: each may be one of a pair, and after the pairs come left alone and right alone.
pub fn left_count(nodes: &[u32], id: usize) -> usize
    ensures { result ≡ con_len (node_at nodes.now (node_at nodes.now id).left) }
{
    let n = node_at(nodes, id);
    let l = node_at(nodes, n.left);
    con_len(l)
}

// The first place of the child whose value times the multiplier, with more on top, is at least v; past the last one if there is none. The
// values ascend.
fn first_from(keys: &[u32], child: Child, more: usize, v: usize) -> usize
    requires more_bound { more < 2 ^ 48 }
    requires sorted { Sorted keys.now child.node }
    ensures { Cut keys.now child.node child.mul more v result }
{
    first_not(child.len(), |i| child.at(keys, i) + more < v)
}

// The left outputs that can be one of a pair for v: those before are too small even with the largest right value, and those behind are v or
// more alone.
pub fn window(nodes: &[u32], keys: &[u32], id: usize, v: usize) -> Span
    requires muls { Muls (node_at nodes.now id) }
    requires sorted { Sorted keys.now (node_at nodes.now (node_at nodes.now id).left) }
    ensures { Pairing nodes.now keys.now id v result }
{
    let n = node_at(nodes, id);
    let l = node_at(nodes, n.left);
    let r = node_at(nodes, n.right);
    let left = Child {
        node: l,
        mul: n.lmul,
    };
    let right = Child {
        node: r,
        mul: n.rmul,
    };
    let most = right.largest(keys);
    let from = first_from(keys, left, most, v);
    let to = first_from(keys, left, 0, v);
    Span { from, to }
}

// What is to be done for the output at place y of node id.
#[tactic(auto, unfolding(paper::specs::Weighted::job_of))]
pub fn job_at(nodes: &[u32], keys: &[u32], marks: &[u8], id: usize, y: usize) -> Job
    requires { Place nodes.now (length marks.now) id y }
    ensures { result ≡ job_of nodes.now keys.now marks.now id y }
{
    if y == 0 {
        return Job::Nothing;
    }
    let n = node_at(nodes, id);
    match n.kind_of() {
        Kind::Unit => Job::Count(y - 1),
        Kind::General => {
            let at = n.first + (y - 1);
            if marks[at] == 0 {
                return Job::Sum(at, word_from(keys, n.first, y - 1));
            }
            Job::Nothing
        }
        _ => Job::Nothing,
    }
}
