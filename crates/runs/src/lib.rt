// What the demands share: a demand run dry, then in earnest, the literal that is answered, and in proofs/ the laws of both runs.
#![tactic(auto)]

ghost use Rattle.std.specs.Prelude.{◌≡◌, List, ℕ, ◌+◌, ◌<◌, ◌≤◌, ◌^◌, ℤ, length};
ghost use Rattle.paper.specs.Rows.{con_lits};
ghost use Rattle.paper.specs.Plain.{lit_at, St};
ghost use Rattle.paper.specs.declared.Tree.{Tree};
ghost use Rattle.clause.specs.Row.{Row};
ghost use Rattle.count.specs.Run.{Ok, Here, Fit, state, Ran, Ends};
ghost use Rattle.count.specs.Encoding.{state_of, SameRows, FitFor, RanBy};
ghost use Rattle.runs.specs.Dry.{Twice};
ghost use Rattle.runs.specs.Met.{Met};
ghost use Rattle.runs.specs.Used.{run_of};

use count::{Encoder, con_lits};
use paper::{Counters, Demanded, Refusal, Run, Tree};

// A demand of an output, unweighted or weighted.
pub trait Demand {
    // The run over rows, at a fuel; the plain run from a free variable; and from which fuel on the two are the same.
    ghost at: { Self → Tree → ℕ → St Row → St Row };

    ghost plain: { Self → Tree → List ℤ → List ℕ → ℕ → St (List ℤ) };

    ghost fuel: { Self → ℕ };

    // What it asks of the tree.
    ghost Asks: { Self → Tree → Type 0 };

    fn run(&self, tree: &Tree, encoder: &mut Encoder)
        requires fit { FitFor tree.now encoder.old }
        requires asked { Asks self.now tree.now }
        requires ends { Ends (fuel self.now) (λ f. at self.now tree.now f (state_of encoder.old)) }
        ensures ran { RanBy tree.now (fuel self.now) (λ f. at self.now tree.now f (state_of encoder.old)) encoder.new }
        ensures same { SameRows encoder.old encoder.new };

    // A dry run counts what the run in earnest takes.
    ghost twice: { (d : Self) (t : Tree) → Twice (at d t) (plain d t) (fuel d) };
}

// The demand over the rows, from the counters given.
fn run_on<D: Demand>(
    demand: &D,
    tree: &Tree,
    lits: &mut [i32],
    marks: &mut [u8],
    row: &mut [i32],
    run: Run,
) -> Run
    requires fit { Fit tree.now.nodes.now tree.now.inputs.now lits.old marks.old run }
    requires asked { D.Asks demand.now tree.now }
    requires ends { Ends (D.fuel demand.now) (λ f. D.at demand.now tree.now f (state lits.old marks.old row.old run)) }
    ensures { Ran tree.now.nodes.now tree.now.inputs.now (D.fuel demand.now)
        (λ f. D.at demand.now tree.now f (state lits.old marks.old row.old run)) lits.new marks.new row.new result }
{
    let mut encoder = Encoder {
        lits,
        marks,
        row,
        run,
    };
    demand.run(tree, &mut encoder);
    encoder.run
}

// The working area takes the literals and marks as they are, so that a dry run changes nothing else. Not by the library's `copy_from_slice`:
// an archive for C would then want a `memmove` from outside.
pub fn copy_row<T: Copy>(src: &[T], dst: &mut [T])
    requires { length dst.old ≡ length src.now }
    ensures { dst.new ≡ src.now }
{
    for k in 0..src.len() {
        dst[k] = src[k];
    }
}

// An output's literal, where it lies.
pub fn literal_at(tree: &Tree, lits: &[i32], id: usize, i: usize) -> i32
    requires ok { Ok tree.now.nodes.now (length tree.now.inputs.now) (length lits.now) }
    requires here { Here tree.now.nodes.now id i }
    ensures { result ≡ lit_at (con_lits tree.now.nodes.now tree.now.inputs.now lits.now id) i }
{
    con_lits(tree.nodes, tree.inputs, lits, id)[i]
}

// The working rows hold copies of lits and marks. A dry run on them, from variable 1 and with a clause row that is full,
// writes nothing else and counts: so 12 and 13 are told before anything is changed.
fn run_twice<D: Demand>(
    demand: &D,
    tree: &Tree,
    lits: &mut [i32],
    marks: &mut [u8],
    clauses: &mut [i32],
    ints: &mut [i32],
    bytes: &mut [u8],
    c: Counters,
    id: usize,
    i: usize,
) -> Result<Demanded, Refusal>
    requires fit { Fit tree.now.nodes.now tree.now.inputs.now lits.old marks.old (run_of c) }
    requires asked { D.Asks demand.now tree.now }
    requires here { Here tree.now.nodes.now id i }
    requires ints_value { (ints.old ≡ lits.old) × (bytes.old ≡ marks.old) }
    requires lits_len_bound { (length lits.old < 2 ^ 31) × (c.words ≤ length clauses.old) × (c.last < 2 ^ 31) × (c.next ≤ c.last + 1) }
    ensures { let p = D.plain demand.now tree.now lits.old marks.old c.next in
        Met p c (lit_at (con_lits tree.now.nodes.now tree.now.inputs.now p.lits id) i)
        lits.old marks.old clauses.old result lits.new marks.new clauses.new }
{
    let len = clauses.len();
    let full = Run {
        next: 1,
        words: len,
    };
    let dry = run_on(demand, tree, ints, bytes, clauses, full);
    let vars = dry.next - 1;
    let words = dry.words - len;
    if c.last + 1 < c.next + vars {
        return Err(Refusal::VariablesOut);
    }
    if len < c.words + words {
        return Err(Refusal::ClausesShort);
    }
    let run = Run {
        next: c.next,
        words: c.words,
    };
    let ran = run_on(demand, tree, lits, marks, clauses, run);
    let lit = literal_at(tree, lits, id, i);
    Ok(Demanded {
        lit,
        counters: Counters {
            next: ran.next,
            words: ran.words,
            ..c
        },
    })
}

// The demand of output i of node id on the rows in use, with a working area that is long enough. No answer depends on what it held.
pub fn meet<D: Demand>(
    demand: &D,
    tree: &Tree,
    lits: &mut [i32],
    marks: &mut [u8],
    clauses: &mut [i32],
    ints: &mut [i32],
    bytes: &mut [u8],
    c: Counters,
    id: usize,
    i: usize,
) -> Result<Demanded, Refusal>
    requires fit { Fit tree.now.nodes.now tree.now.inputs.now lits.old marks.old (run_of c) }
    requires asked { D.Asks demand.now tree.now }
    requires here { Here tree.now.nodes.now id i }
    requires lits_in_bounds { (length lits.old ≤ length ints.old) × (length lits.old ≤ length bytes.old) }
    requires lits_len_bound { (length lits.old < 2 ^ 31) × (c.words ≤ length clauses.old) × (c.last < 2 ^ 31) × (c.next ≤ c.last + 1) }
    ensures { let p = D.plain demand.now tree.now lits.old marks.old c.next in
        Met p c (lit_at (con_lits tree.now.nodes.now tree.now.inputs.now p.lits id) i)
        lits.old marks.old clauses.old result lits.new marks.new clauses.new }
{
    let cells = lits.len();
    let ints = &mut ints[..cells];
    let bytes = &mut bytes[..cells];
    copy_row(lits, ints);
    copy_row(marks, bytes);
    run_twice(demand, tree, lits, marks, clauses, ints, bytes, c, id, i)
}
