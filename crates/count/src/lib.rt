// The unweighted run: the demand of an output and its walk over the children call each other, and the node id falls at
// each round. One recursion serves twice: on working rows with a full clause row it only counts, then it runs in earnest.
#![tactic(auto)]

ghost use Rattle.std.specs.Prelude.{◌≡◌, ℕ, ◌+◌, ◌-◌, ◌/◌, ◌<◌, ◌≤◌, ◌^◌, length, neg_ℤ};
ghost use Rattle.std.specs.Int.{w32};
ghost use Rattle.std.proofs.Common.{SFits};
ghost use Rattle.paper.specs.Limits.{node_words};
ghost use Rattle.paper.specs.Rows.{con_lits};
ghost use Rattle.paper.specs.Plain.{plan_of, taken_lits, taken_next, emit_both, finish_of, demands_of, walk_of, define};
ghost use Rattle.clause.specs.Row.{lay, at_row, Laid, Neg};
ghost use Rattle.count.specs.Run.{Ok, Here, Cell, WalkOk, outs, Ends};
ghost use Rattle.count.specs.Encoding.{state_of, SameRows, FitFor, DoneBy, RanBy};

use clause::ClauseRow;
use count_plan::{missing, precond_unit};
use paper::{Kind, Node, Precond, Ranges, Run, Span, Todo, Tree, Want};
use rows::{con_len, node_at};

// "A child's literals are read where they lie: a part of the input row for a leaf, of the cell row for a unit."
pub fn con_lits<'a>(nodes: &[u32], inputs: &'a [i32], lits: &'a [i32], id: usize) -> &'a [i32]
    requires { (id < length nodes.now / node_words) × Ok nodes.now (length inputs.now) (length lits.now) }
    ensures { result.now ≡ con_lits nodes.now inputs.now lits.now id }
{
    let n = node_at(nodes, id);
    let p = n.first;
    if n.is_leaf() {
        return &inputs[p..p + 1];
    }
    let e = p + con_len(n);
    &lits[p..e]
}

// What is to be done at output i: return, pass the demand through, or walk the children and go on.
pub fn precond_unweighted(nodes: &[u32], marks: &[u8], id: usize, i: usize, want: Want) -> Precond
    requires here { Here nodes.now id i }
    requires by_index { (ni : ℕ) × Ok nodes.now ni (length marks.now) }
    ensures { result ≡ plan_of nodes.now marks.now id i want }
{
    let n = node_at(nodes, id);
    match n.kind_of() {
        Kind::Unit => {
            let todo = missing(marks[n.first + i], want);
            precond_unit(nodes, n, i, todo)
        }
        _ => Precond::Return,
    }
}

// The literals of the two children of n.
pub fn children_lits<'a>(tree: &Tree<'a>, lits: &'a [i32], n: Node) -> (&'a [i32], &'a [i32])
    requires ok { Ok tree.now.nodes.now (length tree.now.inputs.now) (length lits.now) }
    requires below { (n.left < length tree.now.nodes.now / node_words) × (n.right < length tree.now.nodes.now / node_words) }
    ensures left { result.0.now ≡ con_lits tree.now.nodes.now tree.now.inputs.now lits.now n.left }
    ensures right { result.1.now ≡ con_lits tree.now.nodes.now tree.now.inputs.now lits.now n.right }
{
    let left = con_lits(tree.nodes, tree.inputs, lits, n.left);
    let right = con_lits(tree.nodes, tree.inputs, lits, n.right);
    (left, right)
}

// The own clauses of output i of the unit n, whose literal is o; how many words there are then.
fn own_clauses(
    tree: &Tree,
    lits: &[i32],
    row: &mut [i32],
    words: usize,
    n: Node,
    i: usize,
    o: i32,
    want: Want,
) -> usize
    requires ok { Ok tree.now.nodes.now (length tree.now.inputs.now) (length lits.now) }
    requires left_in_bounds { (n.left < length tree.now.nodes.now / node_words) × (n.right < length tree.now.nodes.now / node_words) }
    requires neg { Neg tree.now.inputs.now }
    requires neg_2 { Neg lits.now }
    requires i_bound { (i < 2 ^ 63) × (words ≤ 2 ^ 62) × SFits w32 (neg_ℤ o) }
    ensures { Laid
        (emit_both lay (con_lits tree.now.nodes.now tree.now.inputs.now lits.now n.left)
        (con_lits tree.now.nodes.now tree.now.inputs.now lits.now n.right) i o want (at_row row.old words))
        row.new result }
{
    let (left, right) = children_lits(tree, lits, n);
    let mut clauses = ClauseRow { row, words };
    clauses.emit(left, right, i, o, want);
    clauses.words
}

// What a demand writes: the literals and marks of the cells, the clause row, and the two counters. Where a row is read for a call, or two
// go to one, each is lent by a name of its own: that is the form in which the check follows them.
#[derive(Drop)]
pub struct Encoder<'a> {
    pub lits: &'a mut [i32],
    pub marks: &'a mut [u8],
    pub row: &'a mut [i32],
    pub run: Run,
}

impl<'a> Encoder<'a> {
    // "Take a literal (the next variable) if there is none"
    pub fn take_lit(&mut self, at: usize)
        requires { (at < length self.old.lits.now) × (taken_next self.old.lits.now at self.old.run.next ≤ 2 ^ 31) }
        ensures taken { (self.new.lits.now ≡ taken_lits self.old.lits.now at self.old.run.next) × (self.new.run.next ≡ taken_next self.old.lits.now at self.old.run.next) }
        ensures kept { (self.new.marks.now ≡ self.old.marks.now) × (self.new.row.now ≡ self.old.row.now) × (self.new.run.words ≡ self.old.run.words) }
        ensures same { SameRows self.old self.new }
    {
        let old = self.lits[at];
        if old == 0 {
            self.lits[at] = self.run.next as i32;
            self.run.next += 1;
        }
    }

    // Once the children are there: a literal, the mark, the clauses.
    fn encode_unweighted(&mut self, tree: &Tree, id: usize, i: usize, todo: Todo)
        requires fit { FitFor tree.now self.old }
        requires cell { Cell tree.now.nodes.now id i }
        requires run_bound { (finish_of lay tree.now.nodes.now tree.now.inputs.now id i todo (state_of self.old)).next ≤ 2 ^ 31 }
        ensures done { DoneBy tree.now (finish_of lay tree.now.nodes.now tree.now.inputs.now id i todo (state_of self.old)) self.new }
        ensures same { SameRows self.old self.new }
    {
        let n = node_at(tree.nodes, id);
        let at = n.first + i;
        self.take_lit(at);
        self.marks[at] = todo.mark;
        let o = self.lits[at];
        let lits = &mut *self.lits;
        let row = &mut *self.row;
        let words = own_clauses(tree, lits, row, self.run.words, n, i, o, todo.want);
        self.run.words = words;
    }

    // The demand of output i of node id in the directions that are wanted.
    #[cycle(unweighted)]
    pub fn define_unweighted_rec(&mut self, tree: &Tree, id: usize, i: usize, want: Want)
        requires fit { FitFor tree.now self.old }
        requires here { Here tree.now.nodes.now id i }
        requires ends { Ends (id + 1) (λ f. define lay f tree.now.nodes.now tree.now.inputs.now id i want (state_of self.old)) }
        ensures ran { RanBy tree.now (id + 1) (λ f. define lay f tree.now.nodes.now tree.now.inputs.now id i want (state_of self.old)) self.new }
        ensures same { SameRows self.old self.new }
    {
        let marks = &mut *self.marks;
        match precond_unweighted(tree.nodes, marks, id, i, want) {
            Precond::Return => {}
            Precond::Pass(child, todo) => {
                self.define_unweighted_rec(tree, child, i, todo.want);
                self.encode_unweighted(tree, id, i, todo);
            }
            Precond::Continue(ranges, todo) => {
                self.recurse_unweighted(tree, id, ranges);
                self.encode_unweighted(tree, id, i, todo);
            }
        }
    }

    // "Demand If of the left .., then of the right ..; then .. OnlyIf of the left .., then of the right". A range is empty where
    // its direction is not missing.
    #[cycle(unweighted)]
    fn recurse_unweighted(&mut self, tree: &Tree, id: usize, rs: Ranges)
        requires fit { FitFor tree.now self.old }
        requires walk_ok { WalkOk tree.now.nodes.now id rs }
        requires ends { Ends id (λ f. walk_of lay (define lay f tree.now.nodes.now tree.now.inputs.now) rs (state_of self.old)) }
        ensures ran { RanBy tree.now id (λ f. walk_of lay (define lay f tree.now.nodes.now tree.now.inputs.now) rs (state_of self.old)) self.new }
        ensures same { SameRows self.old self.new }
    {
        self.recurse_span(tree, rs.left, rs.left_if, Want::IF);
        self.recurse_span(tree, rs.right, rs.right_if, Want::IF);
        self.recurse_span(tree, rs.left, rs.left_only, Want::ONLY_IF);
        self.recurse_span(tree, rs.right, rs.right_only, Want::ONLY_IF);
    }

    // The demands of a child's outputs, ascending.
    #[cycle(unweighted)]
    fn recurse_span(&mut self, tree: &Tree, child: usize, span: Span, want: Want)
        requires fit { FitFor tree.now self.old }
        requires child_in_bounds { (child < length tree.now.nodes.now / node_words) × (span.to ≤ outs tree.now.nodes.now child) }
        requires ends { Ends (child + 1) (λ f. demands_of lay (define lay f tree.now.nodes.now tree.now.inputs.now) child span want (state_of self.old)) }
        ensures ran { RanBy tree.now (child + 1) (λ f. demands_of lay (define lay f tree.now.nodes.now tree.now.inputs.now) child span want (state_of self.old)) self.new }
        ensures same { SameRows self.old self.new }
    {
        for k in span.from..span.to {
            self.define_unweighted_rec(tree, child, k, want);
        }
    }
}
