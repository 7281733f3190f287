// 02's Item 13: 4,096 leaves in a balanced tree of units, demands at index 0 to 63 of the root, from cleared rows, timed from
// outside. A tree of 8,191 nodes is past the public calls' limit, so the recursion itself runs, on rows made here. Standard
// input has two bytes: the part, and how often: 0 for once, 1 for ten times, 2, 3. Written is how many words the demands take.
//   i, I: If, in earnest; and dry, on a full clause row, as a public call counts first
//   b, B: both directions, in earnest; and dry
//   r: no demand: what clearing and checking the rows takes
//   anything else: i, I, b and B, one after the other
#![tactic(auto)]

ghost use Rattle.std.specs.Prelude.{◌≡◌, true, ℕ, ◌/◌, ◌≤◌, length};
ghost use Rattle.count.specs.Run.{Fit};
ghost use Rattle.count.specs.Encoding.{FitFor};
ghost use Rattle.bench_count.specs.Ready.{node_fit, nodes_fit, from};

use clause::put;
use count::Encoder;
use paper::{Node, Run, Tree, Want};
use rows::{cells_ok, con_len, inputs_ok, node_at};
use table::{fits_in, sum_is};

// A word, where it is inside the row.
fn put_word(nodes: &mut [u32], at: usize, w: usize) {
    if at < nodes.len() {
        if w < 65536 {
            nodes[at] = w as u32;
        }
    }
}

// A leaf's place and depth; its other words are 0.
fn put_leaf(nodes: &mut [u32], k: usize) {
    if k < 4096 {
        put_word(nodes, k * 8 + 5, k);
        put_word(nodes, k * 8 + 7, 1);
    }
}

// A unit over two children that follow each other: kind and children.
fn put_unit(nodes: &mut [u32], k: usize, left: usize) {
    if k < 8191 {
        if left < 8191 {
            put_word(nodes, k * 8, 1);
            put_word(nodes, k * 8 + 1, left);
            put_word(nodes, k * 8 + 2, 1);
            put_word(nodes, k * 8 + 3, left + 1);
            put_word(nodes, k * 8 + 4, 1);
        }
    }
}

// .. and its cells.
fn put_cells(nodes: &mut [u32], k: usize, first: usize, count: usize) {
    if k < 8191 {
        put_word(nodes, k * 8 + 5, first);
        put_word(nodes, k * 8 + 6, count);
    }
}

fn put_leaves(nodes: &mut [u32], inputs: &mut [i32]) {
    for k in 0..4096 {
        put_leaf(nodes, k);
        put(inputs, k, (k + 1) as i32);
    }
}

// How many outputs the unit over two children has, as far as it can be.
fn both_len(nodes: &[u32], left: usize) -> usize {
    if 65536 < left {
        return 0;
    }
    con_len(node_at(nodes, left)).saturating_add(con_len(node_at(nodes, left + 1)))
}

fn put_units(nodes: &mut [u32]) {
    let mut first: usize = 0;
    for k in 4096..8191 {
        let left = (k - 4096) * 2;
        let count = both_len(nodes, left);
        put_unit(nodes, k, left);
        put_cells(nodes, k, first, count);
        first = first.saturating_add(count);
    }
}

fn node_fit(n: Node, l: Node, r: Node, ni: usize, nc: usize, k: usize) -> bool
    ensures { result ≡ node_fit n l r ni nc k }
{
    if n.kind == 0 {
        return n.first < ni;
    }
    fits_in(n.first, con_len(n), nc)
        & ((n.kind != 1) | ((n.left < k) & (n.right < k) & sum_is(n.count, con_len(l), con_len(r))))
}

fn nodes_fit(nodes: &[u32], ni: usize, nc: usize) -> bool
    ensures { result ≡ nodes_fit nodes.now ni nc }
{
    let count = nodes.len() / 8;
    let mut ok = true;
    for k in 0..count {
        let n = node_at(nodes, k);
        let l = node_at(nodes, n.left);
        let r = node_at(nodes, n.right);
        ok = ok & node_fit(n, l, r, ni, nc, k);
    }
    ok
}

// The rows are what the recursion requires.
fn ready(tree: &Tree, lits: &[i32], marks: &[u8]) -> bool
    ensures { result ≡ true → Fit tree.now.nodes.now tree.now.inputs.now lits.now marks.now (from 4097 0) }
{
    if lits.len() != marks.len() {
        return false;
    }
    let a = nodes_fit(tree.nodes, tree.inputs.len(), lits.len());
    let b = inputs_ok(tree.inputs, tree.inputs.len(), 2147483648);
    let c = cells_ok(lits, marks, lits.len(), 1, 2147483648);
    a & b & c
}

// A demand. Where variables could run out, or the output is not there, nothing is done.
fn demand_one(tree: &Tree, encoder: &mut Encoder, i: usize, want: Want)
    requires { FitFor tree.now encoder.old }
    ensures { FitFor tree.now encoder.new }
{
    if 1000000 < encoder.run.next {
        return;
    }
    if 1000000 < encoder.lits.len() {
        return;
    }
    if tree.nodes.len() / 8 <= 8190 {
        return;
    }
    if con_len(node_at(tree.nodes, 8190)) <= i {
        return;
    }
    encoder.define_unweighted_rec(tree, 8190, i, want);
}

// Where the next demand's words begin: in earnest behind the last one's, or at the row's start again where they might not fit;
// dry at the row's end.
fn place(words: usize, dry: bool) -> usize
    ensures { result ≤ 1200000 }
{
    if dry {
        return 1200000;
    }
    if words <= 1000000 { words } else { 0 }
}

// The demands below count, from cleared rows, and the words that they take; 1 where the rows are not fit.
fn demand_all(tree: &Tree, encoder: &mut Encoder, want: Want, dry: bool, count: usize) -> usize {
    encoder.lits.fill(0);
    encoder.marks.fill(0);
    encoder.run = Run {
        next: 4097,
        words: place(0, dry),
    };
    let lits = &mut *encoder.lits;
    let marks = &mut *encoder.marks;
    if !ready(tree, lits, marks) {
        return 1;
    }
    let mut words: usize = 0;
    for i in 0..count {
        let at = encoder.run.words;
        demand_one(tree, encoder, i, want);
        words = words.saturating_add(encoder.run.words.saturating_sub(at));
        encoder.run.words = place(encoder.run.words, dry);
    }
    words
}

fn say(words: usize) {
    io::print_decimal(1, words as u64);
    io::write_all(1, b"\n");
}

fn build(nodes: &mut [u32; 65528], inputs: &mut [i32; 4096]) {
    put_leaves(nodes, inputs);
    put_units(nodes);
}

// The demands of the outputs below count, n times.
fn demands(tree: &Tree, encoder: &mut Encoder, want: Want, dry: bool, count: usize, n: usize) {
    let mut words = 0;
    for _ in 0..n {
        words = demand_all(tree, encoder, want, dry, count);
    }
    say(words);
}

fn times(digit: u8) -> usize {
    match digit {
        b'1' => 10,
        b'2' => 100,
        b'3' => 1000,
        _ => 1,
    }
}

fn part(tree: &Tree, encoder: &mut Encoder, which: u8, n: usize) {
    match which {
        b'i' => demands(tree, encoder, Want::IF, false, 64, n),
        b'I' => demands(tree, encoder, Want::IF, true, 64, n),
        b'b' => demands(tree, encoder, Want::BOTH, false, 64, n),
        b'B' => demands(tree, encoder, Want::BOTH, true, 64, n),
        b'r' => demands(tree, encoder, Want::IF, false, 0, n),
        _ => {
            demands(tree, encoder, Want::IF, false, 64, n);
            demands(tree, encoder, Want::IF, true, 64, n);
            demands(tree, encoder, Want::BOTH, false, 64, n);
            demands(tree, encoder, Want::BOTH, true, 64, n)
        }
    }
}

fn over(
    nodes: &[u32; 65528],
    inputs: &[i32; 4096],
    lits: &mut [i32; 49152],
    marks: &mut [u8; 49152],
    row: &mut [i32; 1200000],
    which: u8,
    n: usize,
) {
    let tree = Tree {
        nodes,
        inputs,
        keys: &[],
    };
    let run = Run { next: 0, words: 0 };
    let mut encoder = Encoder {
        lits,
        marks,
        row,
        run,
    };
    part(&tree, &mut encoder, which, n);
}

fn main() {
    let mut nodes = [0u32; 65528];
    let mut inputs = [0i32; 4096];
    let mut lits = [0i32; 49152];
    let mut marks = [0u8; 49152];
    let mut row = [0i32; 1200000];
    let mut asked = [0u8; 2];
    io::read_full(0, &mut asked);
    let which = asked[0];
    let n = times(asked[1]);
    build(&mut nodes, &mut inputs);
    over(&nodes, &inputs, &mut lits, &mut marks, &mut row, which, n);
}
