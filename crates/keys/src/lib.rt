// The keys of a general node: L, R and all sums l + r, ascending, each once. One law serves the check and the making of a
// row of keys: from past a key on, the least of the sums is the next key.
#![tactic(auto)]

ghost use Rattle.std.specs.Prelude.{◌≡◌, true, cond, ℕ, ◌+◌, ◌*◌, ◌<◌, ◌≤◌, ◌^◌, min, length, get_or};
ghost use Rattle.std.proofs.Math.Seq.{paste};
ghost use Rattle.paper.specs.Limits.{mul_limit};
ghost use Rattle.paper.specs.Rows.{con_len, con_val};
ghost use Rattle.paper.specs.Keys.{node_keys, row_equals};
ghost use Rattle.facts.specs.Facts.{Under};
ghost use Rattle.keys.specs.Least.{pick_of, least_all, first_from, Ascends, Cut, picked_at, largest_of};

use paper::{KEY_LIMIT, Node};

// Above every sum of two products of a multiplier and a word.
const NONE: usize = 4611686018427387904;

// x, if it is at least a and below best; else best.
pub fn pick(a: usize, x: usize, best: usize) -> usize
    ensures { result ≡ pick_of a x best }
{
    if (a <= x) & (x < best) { x } else { best }
}

// A child as its parent sees it: its values, each times the multiplier.
#[derive(Clone, Copy)]
pub struct Child {
    pub node: Node,
    pub mul: usize,
    pub ghost small: { mul ≤ mul_limit },
}

impl Child {
    // How many values there are.
    pub fn len(self) -> usize
        ensures { result ≡ con_len self.node }
    {
        rows::con_len(self.node)
    }

    // Value j times the multiplier.
    pub fn at(self, keys: &[u32], j: usize) -> usize
        ensures { (result ≡ con_val keys.now self.node self.mul j) × (result < 2 ^ 48) }
    {
        self.mul * rows::value_at(keys, self.node, j)
    }

    // The last of the values, or 0: where they do not fall, the largest.
    pub fn largest(self, keys: &[u32]) -> usize
        ensures { (result ≡ largest_of keys.now self.node self.mul) × (result < 2 ^ 48) }
    {
        let n = self.len();
        if n == 0 {
            return 0;
        }
        self.at(keys, n - 1)
    }

    // The least of best and the sums l + r that are at least a, over the values r of the child.
    pub fn least_row(self, keys: &[u32], l: usize, a: usize, best: usize) -> usize
        requires { l < 2 ^ 48 }
        ensures { result ≡ least_all (con_len self.node) (λ j. l + con_val keys.now self.node self.mul j) a best }
    {
        let mut b = best;
        for j in 0..self.len() {
            b = pick(a, l + self.at(keys, j), b);
        }
        b
    }

    // Whether the values do not fall.
    fn ascending(self, keys: &[u32]) -> bool
        ensures { result ≡ true → Ascends keys.now self.node }
    {
        let mut last = 0;
        for i in 0..self.len() {
            let v = rows::value_at(keys, self.node, i);
            if v < last {
                return false;
            }
            last = v;
        }
        true
    }

    // Goes back from j to where x + r begins to be at least a, by steps that double and then by halves.
    fn back(self, keys: &[u32], x: usize, a: usize, j: usize) -> usize
        requires { (x < 2 ^ 48) × (j ≤ con_len self.node) × Ascends keys.now self.node }
        ensures { Cut (con_val keys.now self.node self.mul) x a j result result }
    {
        let mut lo = 0;
        let mut hi = j;
        let mut step = 1;
        while lo < hi {
            let mid = probe(lo, hi, step);
            let low = x + self.at(keys, mid) < a;
            step = wider(low, step);
            lo = lower_end(low, lo, mid, hi);
            hi = upper_end(low, mid, hi);
        }
        hi
    }

    // best, or the sum at j if there is one there and it is better.
    fn pick_at(self, keys: &[u32], x: usize, a: usize, best: usize, j: usize) -> usize
        requires { x < 2 ^ 48 }
        ensures { result ≡ picked_at (con_len self.node) (λ k. x + con_val keys.now self.node self.mul k) a best j }
    {
        if j < self.len() {
            pick(a, x + self.at(keys, j), best)
        } else {
            best
        }
    }
}

// A place from lo on and below hi to look at: near hi at first, and then the middle.
fn probe(lo: usize, hi: usize, step: usize) -> usize
    requires { lo < hi }
    ensures { (lo ≤ result) × (result < hi) }
{
    let half = (hi - lo) / 2;
    if step <= half {
        if 0 < step { hi - step } else { lo }
    } else {
        lo + half
    }
}

fn wider(low: bool, step: usize) -> usize {
    if low {
        return NONE;
    }
    if step < NONE { step + step } else { step }
}

// The ends of what is left once the place mid was looked at.
fn lower_end(low: bool, lo: usize, mid: usize, hi: usize) -> usize
    requires { mid < hi }
    ensures { result ≡ cond low (mid + 1) lo }
{
    if low { mid + 1 } else { lo }
}

fn upper_end(low: bool, mid: usize, hi: usize) -> usize
    ensures { result ≡ cond low hi mid }
{
    if low { hi } else { mid }
}

// The two children of a general node, whose keys these are.
#[derive(Clone, Copy)]
pub struct Children {
    pub left: Child,
    pub right: Child,
}

impl Children {
    // The first key at least a, or NONE, over every l and r, whatever their order: |L| * |R| steps.
    fn first_key_any(self, keys: &[u32], a: usize) -> usize
        ensures { result ≡ first_from a (node_keys keys.now self.left.node self.left.mul self.right.node self.right.mul) }
    {
        let mut b = self.right.least_row(keys, 0, a, NONE);
        for i in 0..self.left.len() {
            let x = self.left.at(keys, i);
            b = self.right.least_row(keys, x, a, pick(a, x, b));
        }
        b
    }

    // The same where the values do not fall: from the first row that reaches a on, j only goes back, so at most |L| + |R| steps;
    // and a itself, which cannot be bettered, ends the search.
    fn first_key_sorted(self, keys: &[u32], a: usize) -> usize
        requires { Ascends keys.now self.left.node × Ascends keys.now self.right.node }
        ensures { result ≡ first_from a (node_keys keys.now self.left.node self.left.mul self.right.node self.right.mul) }
    {
        let n = self.left.len();
        let most = self.right.largest(keys);
        let mut j = self.right.back(keys, 0, a, self.right.len());
        let mut b = self.right.pick_at(keys, 0, a, NONE, j);
        let from = self.left.back(keys, most, a, n);
        for i in from..n {
            if b == a {
                return b;
            }
            let x = self.left.at(keys, i);
            j = self.right.back(keys, x, a, j);
            b = self.right.pick_at(keys, x, a, pick(a, x, b), j);
        }
        b
    }

    // Whether neither child's values fall, as in a checked table. It is asked once a node, and the questions then go by the stairs.
    fn rising(self, keys: &[u32]) -> bool
        ensures { result ≡ true → Ascends keys.now self.left.node × Ascends keys.now self.right.node }
    {
        self.left.ascending(keys) && self.right.ascending(keys)
    }

    // The first key at least a, or NONE: the least number at least a among L, R and all sums.
    fn next_key(self, keys: &[u32], up: bool, a: usize) -> usize
        requires { up ≡ true → Ascends keys.now self.left.node × Ascends keys.now self.right.node }
        ensures { result ≡ first_from a (node_keys keys.now self.left.node self.left.mul self.right.node self.right.mul) }
    {
        if up {
            self.first_key_sorted(keys, a)
        } else {
            self.first_key_any(keys, a)
        }
    }

    // How many keys there are, at most top.
    pub fn count_keys(self, keys: &[u32], top: usize) -> usize
        ensures { result ≡ min (length (node_keys keys.now self.left.node self.left.mul self.right.node self.right.mul)) top }
    {
        let up = self.rising(keys);
        let mut a = 0;
        for i in 0..top {
            let x = self.next_key(keys, up, a);
            if x == NONE {
                return i;
            }
            a = x + 1;
        }
        top
    }

    // Writes the first count keys at place at on.
    pub fn write_keys(self, keys: &mut [u32], at: usize, count: usize)
        requires count_in_bounds { (at + count ≤ length keys.old) × (Under self.left.node at) × (Under self.right.node at) }
        requires count_in_bounds_2 { (count ≤ length (node_keys keys.old self.left.node self.left.mul self.right.node self.right.mul)) × ((i : ℕ) → i < count → get_or (node_keys keys.old self.left.node self.left.mul self.right.node self.right.mul) i 0 < 2 ^ 32) }
        ensures { keys.new ≡ paste keys.old at (node_keys keys.old self.left.node self.left.mul self.right.node self.right.mul) count }
    {
        let up = self.rising(keys);
        let mut a = 0;
        for i in 0..count {
            let x = self.next_key(keys, up, a);
            keys[at + i] = x as u32;
            a = x + 1;
        }
    }
}

// The row has exactly the node's keys, each within the limit.
pub fn general_keys_ok(keys: &[u32], n: Node, l: Node, r: Node) -> bool
    requires { (n.lmul ≤ mul_limit) × (n.rmul ≤ mul_limit) }
    ensures { result ≡ row_equals keys.now n.first n.count (node_keys keys.now l n.lmul r n.rmul) }
{
    let children = Children {
        left: Child {
            node: l,
            mul: n.lmul,
        },
        right: Child {
            node: r,
            mul: n.rmul,
        },
    };
    let up = children.rising(keys);
    let mut ok = true;
    let mut a = 0;
    for i in 0..n.count {
        let x = children.next_key(keys, up, a);
        let k = rows::word_from(keys, n.first, i);
        ok = ok & ((k == x) & (k <= KEY_LIMIT));
        a = x + 1;
    }
    let past = children.next_key(keys, up, a);
    ok & (past == NONE)
}
