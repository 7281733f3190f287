// What a weighted demand costs on general nodes of 2,046 keys, timed from outside. Standard input has three bytes: what is run,
// the value, and how often: 0 for once, 1 for ten times, up to 4. What is written depends on these alone.
//   p: the public call; w: its recursion alone, in earnest; d: the same dry, on a full clause row; anything else: all of these;
//   t: the table check
//   a, b, c, d: the values 2, 512, 1023, 2046 of a node over two nodes of the values 1 to 1023
//   e: the value 1200 of a node over the values 1 to 1023 and 341, 682, 1023
//   f: the value 1024 of the first of these nodes, and every output below it; anything else: a to f
// For a to e every output below is demanded before, so that a demand appends its own clauses only: one for each pair l + r = v,
// and one for each side that has v alone. Of v up to 1023 there are v - 1 pairs and both sides alone: 3, 513, 1024 clauses; of
// 2046 one pair, of 1200 three. A pair takes four words, a side alone three.
#![tactic(auto)]

ghost use Rattle.std.specs.Prelude.{◌≤◌};
ghost use Rattle.count.specs.Encoding.{FitFor};
ghost use Rattle.sum.specs.Ways.{Generals};

use count::Encoder;
use paper::{Added, Counters, Pair, Refusal, Run, Tree};
use rows::{con_len, node_at};
use std::ops::Range;
use sum::weigh;
use sums::define_weighted;
use table::table_ok;

// The rows of a database, lent to all that follows. Where a call takes several of them, each is lent by a name of its own: that is
// the form in which the check follows them.
#[derive(Drop)]
struct Rows<'a> {
    nodes: &'a mut [u32],
    inputs: &'a mut [i32],
    keys: &'a mut [u32],
    lits: &'a mut [i32],
    marks: &'a mut [u8],
    clauses: &'a mut [i32],
    ints: &'a mut [i32],
    bytes: &'a mut [u8],
}

// ---- the table

// The counters after a call that adds a node; those before where it is refused.
fn after(a: Result<Added, Refusal>, c: Counters) -> Counters {
    a.map_or(c, |done| done.counters)
}

fn start() -> Counters {
    grow::fresh(2, 100000).unwrap_or(Counters {
        first: 0,
        next: 0,
        last: 0,
        nodes: 0,
        inputs: 0,
        cells: 0,
        words: 0,
    })
}

impl<'a> Rows<'a> {
    fn leaf(&mut self) -> Counters {
        let c = start();
        let nodes = &mut *self.nodes;
        let inputs = &mut *self.inputs;
        let keys = &mut *self.keys;
        let lits = &mut *self.lits;
        let marks = &mut *self.marks;
        let a = grow::leaf(nodes, inputs, keys, lits, marks, 0, c, 1);
        after(a, c)
    }

    fn inner(&mut self, c: Counters, left: usize, right: usize, rmul: usize) -> Counters {
        let pair = Pair {
            left,
            lmul: 1,
            right,
            rmul,
        };
        let nodes = &mut *self.nodes;
        let inputs = &mut *self.inputs;
        let keys = &mut *self.keys;
        let lits = &mut *self.lits;
        let marks = &mut *self.marks;
        let a = join::inner(nodes, inputs, keys, lits, marks, 0, c, pair);
        after(a, c)
    }

    // Nodes 1 to 4, of the values 1 to 3, 7, 15, 31.
    fn low(&mut self) -> Counters {
        let c = self.leaf();
        let c = self.inner(c, 0, 0, 2);
        let c = self.inner(c, 1, 0, 4);
        let c = self.inner(c, 2, 0, 8);
        self.inner(c, 3, 0, 16)
    }

    // Nodes 5 and 6, of the values 1 to 1023; 7, over both of them; 8, over one and three values. These have 2,046 keys each.
    fn high(&mut self, c: Counters) -> Counters {
        let c = self.inner(c, 4, 4, 32);
        let c = self.inner(c, 4, 4, 32);
        let c = self.inner(c, 5, 6, 1);
        self.inner(c, 5, 1, 341)
    }
}

// ---- the public call

fn with_words(c: Counters, words: usize) -> Counters {
    Counters { words, ..c }
}

fn put_mark(marks: &mut [u8], at: usize, m: u8) {
    if let Some(mark) = marks.get_mut(at) {
        *mark = m;
    }
}

// The mark of value v, in the cell at, taken back; of 1024 all marks.
fn unmark(marks: &mut [u8], at: usize, v: usize) {
    if v == 1024 {
        marks.fill(0);
    } else {
        put_mark(marks, at, 0);
    }
}

impl<'a> Rows<'a> {
    // The cell of output v, where the keys are 1, 2, ..
    fn cell(&self, id: usize, v: usize) -> usize {
        let n = node_at(self.nodes, id);
        if n.first < 65536 {
            if v < 65536 {
                return (n.first + v).saturating_sub(1);
            }
        }
        0
    }

    fn call(&mut self, c: Counters, id: usize, v: usize) -> Counters {
        let nodes = &mut *self.nodes;
        let inputs = &mut *self.inputs;
        let keys = &mut *self.keys;
        let lits = &mut *self.lits;
        let marks = &mut *self.marks;
        let clauses = &mut *self.clauses;
        let ints = &mut *self.ints;
        let bytes = &mut *self.bytes;
        let r = define_weighted(
            nodes, inputs, keys, lits, marks, clauses, ints, bytes, c, id, v,
        );
        r.map_or(c, |done| done.counters)
    }

    // The same demand n times, its mark and its words taken back before each.
    fn calls(&mut self, c: Counters, id: usize, v: usize, n: usize) -> Counters {
        let at = self.cell(id, v);
        let mut now = c;
        for _ in 0..n {
            unmark(self.marks, at, v);
            now = self.call(with_words(now, c.words), id, v);
        }
        now
    }
}

// ---- its recursion

// The output at place y of node id. Where variables could run out, or the output is not there, nothing is done.
fn weigh_one(tree: &Tree, encoder: &mut Encoder, id: usize, y: usize)
    requires fit { FitFor tree.now encoder.old }
    requires generals { Generals tree.now.nodes.now tree.now.keys.now }
    ensures { FitFor tree.now encoder.new }
{
    if 1000000 < encoder.run.next {
        return;
    }
    if 1000000 < encoder.lits.len() {
        return;
    }
    if tree.nodes.len() / 8 <= id {
        return;
    }
    if con_len(node_at(tree.nodes, id)) < y {
        return;
    }
    weigh(tree, encoder, id, y);
}

// The same n times, its mark, in the cell at, and its words taken back before each. How many words it takes.
fn weighed(tree: &Tree, encoder: &mut Encoder, id: usize, y: usize, at: usize, n: usize) -> usize
    requires fit { FitFor tree.now encoder.old }
    requires generals { Generals tree.now.nodes.now tree.now.keys.now }
{
    let from = encoder.run.words;
    let mut words = 0;
    for _ in 0..n {
        unmark(encoder.marks, at, y);
        encoder.run.words = from;
        weigh_one(tree, encoder, id, y);
        words = encoder.run.words.saturating_sub(from);
    }
    words
}

// .. over the parts in use, its words from the place given on.
fn in_use(
    nodes: &[u32],
    inputs: &[i32],
    keys: &[u32],
    lits: &mut [i32],
    marks: &mut [u8],
    row: &mut [i32],
    c: Counters,
    id: usize,
    y: usize,
    at: usize,
    from: usize,
    n: usize,
) -> usize {
    if !table_ok(nodes, inputs, keys, lits, marks, row.len(), c) {
        return 0;
    }
    if row.len() < from {
        return 0;
    }
    let words = c.nodes * 8;
    let leaves = c.inputs;
    let cells = c.cells;
    let tree = Tree {
        nodes: &nodes[..words],
        inputs: &inputs[..leaves],
        keys: &keys[..cells],
    };
    let mut encoder = Encoder {
        lits: &mut lits[..cells],
        marks: &mut marks[..cells],
        row,
        run: Run {
            next: c.next,
            words: from,
        },
    };
    weighed(&tree, &mut encoder, id, y, at, n)
}

// ---- the table check

impl<'a> Rows<'a> {
    // How many of n checks pass. A mark past those in use is changed each time, so that no check is left out.
    fn checks(&mut self, c: Counters, n: usize) -> usize {
        let mut ok = 0;
        for i in 0..n {
            put_mark(self.marks, 8191, (i % 2) as u8);
            let nodes = &mut *self.nodes;
            let inputs = &mut *self.inputs;
            let keys = &mut *self.keys;
            let lits = &mut *self.lits;
            let marks = &mut *self.marks;
            ok += usize::from(table_ok(nodes, inputs, keys, lits, marks, 16384, c));
        }
        ok
    }
}

// ---- writing

// How many clauses the words from one place to another hold: each ends with a 0.
fn clauses_in(row: &[i32], from: usize, to: usize) -> usize {
    row.iter()
        .take(to)
        .skip(from)
        .filter(|word| **word == 0)
        .count()
}

fn say_number(what: &[u8], n: usize) {
    io::write_all(1, what);
    io::print_decimal(1, n as u64);
}

fn say_demand(clauses: &[i32], v: usize, from: usize, to: usize) {
    say_number(b"value ", v);
    say_number(b": words ", to.saturating_sub(from));
    say_number(b", clauses ", clauses_in(clauses, from, to));
    io::write_all(1, b"\n");
}

fn say_line(what: &[u8], n: usize) {
    say_number(what, n);
    io::write_all(1, b"\n");
}

// ---- the parts

impl<'a> Rows<'a> {
    fn called(&mut self, c: Counters, id: usize, v: usize, n: usize) {
        let now = self.calls(c, id, v, n);
        say_line(b"  the call: ", now.words.saturating_sub(c.words));
    }

    // The recursion alone: its words from the place given on.
    fn weighs(&mut self, c: Counters, id: usize, v: usize, from: usize, n: usize) {
        let at = self.cell(id, v);
        let nodes = &mut *self.nodes;
        let inputs = &mut *self.inputs;
        let keys = &mut *self.keys;
        let lits = &mut *self.lits;
        let marks = &mut *self.marks;
        let clauses = &mut *self.clauses;
        let words = in_use(
            nodes, inputs, keys, lits, marks, clauses, c, id, v, at, from, n,
        );
        say_line(b"  the recursion: ", words);
    }

    fn part(&mut self, c: Counters, id: usize, v: usize, what: u8, n: usize) {
        match what {
            b'p' => self.called(c, id, v, n),
            b'w' => self.weighs(c, id, v, c.words, n),
            b'd' => self.weighs(c, id, v, 16384, n),
            b't' => say_line(b"  checks: ", self.checks(c, n)),
            _ => {
                self.called(c, id, v, n);
                self.weighs(c, id, v, c.words, n);
                self.weighs(c, id, v, 16384, n)
            }
        }
    }

    // One value: the demand once, with its clauses; and then the part. The counters are those after it, its words taken back.
    fn value(&mut self, c: Counters, id: usize, v: usize, what: u8, n: usize) -> Counters {
        let d = self.calls(c, id, v, 1);
        say_demand(self.clauses, v, c.words, d.words);
        let now = with_words(d, c.words);
        self.part(now, id, v, what, n);
        now
    }

    fn values(&mut self, c: Counters, letters: Range<u8>, what: u8, n: usize) {
        let mut now = c;
        for which in letters {
            now = self.value(now, node_of(which), value_of(which), what, n);
        }
    }

    // The value 1024 has 1023 pairs, in which every output of nodes 5 and 6 is.
    fn run(&mut self, what: u8, which: u8, n: usize) {
        let c = self.low();
        let c = self.high(c);
        let d = self.call(c, 7, 1024);
        self.values(with_words(d, 0), letters(which), what, n);
    }
}

fn node_of(which: u8) -> usize {
    if which == b'e' { 8 } else { 7 }
}

fn value_of(which: u8) -> usize {
    match which {
        b'a' => 2,
        b'b' => 512,
        b'c' => 1023,
        b'd' => 2046,
        b'e' => 1200,
        _ => 1024,
    }
}

// The letters that are asked for: one, or all.
fn letters(which: u8) -> Range<u8> {
    match which {
        b'a'..=b'f' => which..which + 1,
        _ => b'a'..b'g',
    }
}

fn times(digit: u8) -> usize {
    match digit {
        b'1' => 10,
        b'2' => 100,
        b'3' => 1000,
        b'4' => 10000,
        _ => 1,
    }
}

fn over(
    nodes: &mut [u32; 128],
    inputs: &mut [i32; 8],
    keys: &mut [u32; 8192],
    lits: &mut [i32; 8192],
    marks: &mut [u8; 8192],
    clauses: &mut [i32; 16384],
    ints: &mut [i32; 8192],
    bytes: &mut [u8; 8192],
    asked: [u8; 3],
) {
    let mut rows = Rows {
        nodes,
        inputs,
        keys,
        lits,
        marks,
        clauses,
        ints,
        bytes,
    };
    rows.run(asked[0], asked[1], times(asked[2]));
}

fn main() {
    let mut nodes = [0u32; 128];
    let mut inputs = [0i32; 8];
    let mut keys = [0u32; 8192];
    let mut lits = [0i32; 8192];
    let mut marks = [0u8; 8192];
    let mut clauses = [0i32; 16384];
    let mut ints = [0i32; 8192];
    let mut bytes = [0u8; 8192];
    let mut asked = [0u8; 3];
    io::read_full(0, &mut asked);
    over(
        &mut nodes,
        &mut inputs,
        &mut keys,
        &mut lits,
        &mut marks,
        &mut clauses,
        &mut ints,
        &mut bytes,
        asked,
    );
}
