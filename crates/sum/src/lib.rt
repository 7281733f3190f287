// The weighted run: the demand of an output and its walk over the ways to make up its value call each other, and the node id falls at
// each round. A unit below is left to the unweighted run.
#![tactic(auto)]

ghost use Rattle.std.specs.Prelude.{◌≡◌, ℕ, ◌+◌, ◌≤◌, ◌^◌, length};
ghost use Rattle.paper.specs.Rows.{con_lits};
ghost use Rattle.paper.specs.Plain.{lit_at};
ghost use Rattle.paper.specs.Weighted.{emit_way, link_of, links_of, weigh};
ghost use Rattle.clause.specs.Row.{lay, at_row, Laid};
ghost use Rattle.count.specs.Run.{Ends};
ghost use Rattle.count.specs.Encoding.{state_of, SameRows, FitFor, RanBy};
ghost use Rattle.sum.specs.Ways.{Generals, Spot, CellAt, WayAt, Sides, pairs_of};

use clause::{ClauseRow, if_clause};
use count::{Encoder, children_lits};
use find::{job_at, left_count, way_at, window};
use paper::{Job, Node, Tree, Want, Way};
use rows::node_at;

// The clause of a way at the node n, if it is one; how many words there are then.
fn clause_of(
    tree: &Tree,
    lits: &[i32],
    row: &mut [i32],
    words: usize,
    n: Node,
    at: usize,
    p: Way,
) -> usize
    requires sides { Sides tree.now.nodes.now tree.now.inputs.now lits.now n.left n.right at p }
    requires words_bound { words ≤ 2 ^ 62 }
    ensures { Laid
        (emit_way lay (con_lits tree.now.nodes.now tree.now.inputs.now lits.now n.left)
        (con_lits tree.now.nodes.now tree.now.inputs.now lits.now n.right) p (lit_at lits.now at) (at_row row.old words))
        row.new result }
{
    if p.x + p.y == 0 {
        return words;
    }
    let (left, right) = children_lits(tree, lits, n);
    let o = lits[at];
    let c = if_clause(left, right, p.x, p.y, o);
    let mut clauses = ClauseRow { row, words };
    clauses.append(c);
    clauses.words
}

// The output at place y of node id. "Else take a literal if there is none, before the children."
#[cycle(weighted)]
pub fn weigh(tree: &Tree, encoder: &mut Encoder, id: usize, y: usize)
    requires fit { FitFor tree.now encoder.old }
    requires generals { Generals tree.now.nodes.now tree.now.keys.now }
    requires spot { Spot tree.now.nodes.now id y }
    requires ends { Ends (id + 1) (λ f. weigh lay f tree.now.nodes.now tree.now.inputs.now tree.now.keys.now id y (state_of encoder.old)) }
    ensures ran { RanBy tree.now (id + 1) (λ f. weigh lay f tree.now.nodes.now tree.now.inputs.now tree.now.keys.now id y (state_of encoder.old)) encoder.new }
    ensures same { SameRows encoder.old encoder.new }
{
    let marks = &mut *encoder.marks;
    match job_at(tree.nodes, tree.keys, marks, id, y) {
        Job::Nothing => {}
        Job::Count(i) => encoder.define_unweighted_rec(tree, id, i, Want::IF),
        Job::Sum(at, v) => {
            encoder.take_lit(at);
            links(tree, encoder, id, at, v);
            encoder.marks[at] = 1;
        }
    }
}

// The ways to make up v at the general node id, whose cell for v is at: the pairs by the left output, left alone, right alone.
#[cycle(weighted)]
fn links(tree: &Tree, encoder: &mut Encoder, id: usize, at: usize, v: usize)
    requires fit { FitFor tree.now encoder.old }
    requires generals { Generals tree.now.nodes.now tree.now.keys.now }
    requires cell_at { CellAt tree.now.nodes.now (length encoder.old.lits.now) id at }
    requires ends { Ends id (λ f. links_of lay (weigh lay f tree.now.nodes.now tree.now.inputs.now tree.now.keys.now) tree.now.nodes.now tree.now.inputs.now tree.now.keys.now id at v (state_of encoder.old)) }
    ensures ran { RanBy tree.now id
        (λ f. links_of lay (weigh lay f tree.now.nodes.now tree.now.inputs.now tree.now.keys.now) tree.now.nodes.now tree.now.inputs.now tree.now.keys.now id at v (state_of encoder.old))
        encoder.new }
    ensures same { SameRows encoder.old encoder.new }
{
    pairs(tree, encoder, id, at, v);
    let pairs = left_count(tree.nodes, id);
    let left = way_at(tree.nodes, tree.keys, id, v, pairs);
    link(tree, encoder, id, at, left);
    let right = way_at(tree.nodes, tree.keys, id, v, pairs + 1);
    link(tree, encoder, id, at, right);
}

// "For left values x ascending": only those that can be one of a pair are tried, since the others do nothing.
#[cycle(weighted)]
fn pairs(tree: &Tree, encoder: &mut Encoder, id: usize, at: usize, v: usize)
    requires fit { FitFor tree.now encoder.old }
    requires generals { Generals tree.now.nodes.now tree.now.keys.now }
    requires cell_at { CellAt tree.now.nodes.now (length encoder.old.lits.now) id at }
    requires ends { Ends id (λ f. pairs_of (weigh lay f tree.now.nodes.now tree.now.inputs.now tree.now.keys.now) tree.now.nodes.now tree.now.inputs.now tree.now.keys.now id at v (state_of encoder.old)) }
    ensures ran { RanBy tree.now id
        (λ f. pairs_of (weigh lay f tree.now.nodes.now tree.now.inputs.now tree.now.keys.now) tree.now.nodes.now tree.now.inputs.now tree.now.keys.now id at v (state_of encoder.old))
        encoder.new }
    ensures same { SameRows encoder.old encoder.new }
{
    let w = window(tree.nodes, tree.keys, id, v);
    for k in w.from..w.to {
        let p = way_at(tree.nodes, tree.keys, id, v, k);
        link(tree, encoder, id, at, p);
    }
}

// "demand that, then left x, and append": a way's output of the right child, then that of the left, then the clause.
#[cycle(weighted)]
fn link(tree: &Tree, encoder: &mut Encoder, id: usize, at: usize, p: Way)
    requires fit { FitFor tree.now encoder.old }
    requires generals { Generals tree.now.nodes.now tree.now.keys.now }
    requires way_at { WayAt tree.now.nodes.now (length encoder.old.lits.now) id at p }
    requires ends { Ends id (λ f. link_of lay (weigh lay f tree.now.nodes.now tree.now.inputs.now tree.now.keys.now) tree.now.nodes.now tree.now.inputs.now id at p (state_of encoder.old)) }
    ensures ran { RanBy tree.now id
        (λ f. link_of lay (weigh lay f tree.now.nodes.now tree.now.inputs.now tree.now.keys.now) tree.now.nodes.now tree.now.inputs.now id at p (state_of encoder.old))
        encoder.new }
    ensures same { SameRows encoder.old encoder.new }
{
    let n = node_at(tree.nodes, id);
    weigh(tree, encoder, n.right, p.y);
    weigh(tree, encoder, n.left, p.x);
    let lits = &mut *encoder.lits;
    let row = &mut *encoder.row;
    let words = clause_of(tree, lits, row, encoder.run.words, n, at, p);
    encoder.run.words = words;
}
