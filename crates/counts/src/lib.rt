// The unweighted demand as a public call: on any rows and numbers, with document 01's refusals in its order.
#![tactic(auto)]

ghost use Rattle.std.specs.Prelude.{◌≡◌, ◌+◌, length};
ghost use Rattle.paper.specs.Plain.{want_of};
ghost use Rattle.paper.specs.Demand.{count_run, count_of, demanded_lits, demanded_marks, demanded_clauses};
ghost use Rattle.count.specs.Run.{Here};
ghost use Rattle.counts.specs.Counted.{counted_at, counted, counted_twice};

use count::Encoder;
use paper::{Counters, Demanded, NODE_WORDS, Refusal, Semantics, Tree, Want};
use rows::{node_at, value_count};
use runs::{Demand, meet};
use table::{table_ok, work_ok};

// The demand of output i of node id in the directions that are wanted.
#[derive(Clone, Copy)]
struct Unweighted {
    id: usize,
    i: usize,
    want: Want,
}

impl Demand for Unweighted {
    ghost at = { counted_at };

    ghost plain = { counted };

    ghost fuel = { λ d. d.id + 1 };

    ghost Asks = { λ d t. Here t.nodes.now d.id d.i };

    ghost twice = { counted_twice };

    fn run(&self, tree: &Tree, encoder: &mut Encoder) {
        encoder.define_unweighted_rec(tree, self.id, self.i, self.want);
    }
}

// Output i of node id in the directions of `semantics`: its literal, or why not. "unweighted 2, 3, 4, 5, 1, 12, 13"
pub fn define_unweighted(
    nodes: &[u32],
    inputs: &[i32],
    keys: &[u32],
    lits: &mut [i32],
    marks: &mut [u8],
    clauses: &mut [i32],
    ints: &mut [i32],
    bytes: &mut [u8],
    c: Counters,
    id: usize,
    i: usize,
    semantics: Semantics,
) -> Result<Demanded, Refusal>
    ensures value { result ≡ count_of nodes.now inputs.now keys.now lits.old marks.old (length clauses.old) (length ints.old) (length bytes.old) c id i (want_of semantics) }
    ensures lits_after { lits.new ≡ demanded_lits result (count_run nodes.now inputs.now lits.old marks.old c id i (want_of semantics)) lits.old c }
    ensures marks_after { marks.new ≡ demanded_marks result (count_run nodes.now inputs.now lits.old marks.old c id i (want_of semantics)) marks.old c }
    ensures clauses_after { clauses.new ≡ demanded_clauses result (count_run nodes.now inputs.now lits.old marks.old c id i (want_of semantics)) clauses.old c }
{
    if !table_ok(nodes, inputs, keys, lits, marks, clauses.len(), c) {
        return Err(Refusal::TableFails);
    }
    if !work_ok(ints.len(), bytes.len(), c) {
        return Err(Refusal::WorkShort);
    }
    if c.nodes <= id {
        return Err(Refusal::NoSuchNode);
    }
    let n = node_at(nodes, id);
    if n.is_general() {
        return Err(Refusal::GeneralNode);
    }
    if value_count(n) <= i {
        return Err(Refusal::NoSuchOutput);
    }
    let words = c.nodes * NODE_WORDS;
    let leaves = c.inputs;
    let cells = c.cells;
    let tree = Tree {
        nodes: &nodes[..words],
        inputs: &inputs[..leaves],
        keys,
    };
    let demand = Unweighted {
        id,
        i,
        want: Want::from(semantics),
    };
    meet(
        &demand,
        &tree,
        &mut lits[..cells],
        &mut marks[..cells],
        clauses,
        ints,
        bytes,
        c,
        id,
        i,
    )
}
