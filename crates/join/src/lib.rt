// The call that adds an inner node: what it comes to is decided first (`join_plan`), over rows that are only read; here it is
// written.
#![tactic(auto)]

ghost use Rattle.std.specs.Prelude.{◌≡◌, ◌+◌, ◌≤◌, length, replicate};
ghost use Rattle.std.proofs.Math.Seq.{paste};
ghost use Rattle.paper.specs.Limits.{cell_limit};
ghost use Rattle.paper.specs.Join.{count_up, inner_plan, inner_added, inner_nodes, inner_keys, inner_lits, inner_marks, new_keys};
ghost use Rattle.join_plan.specs.Ready.{RowReady};

use join_plan::inner_plan;
use keys::{Child, Children};
use paper::{Added, Counters, Kind, Node, Pair, Refusal};

fn write_count(keys: &mut [u32], at: usize, count: usize)
    requires { (at + count ≤ length keys.old) × (count ≤ cell_limit) }
    ensures { keys.new ≡ paste keys.old at (count_up count) count }
{
    for i in 0..count {
        keys[at + i] = (i + 1) as u32;
    }
}

// A row with `zero` in count places from `at` on. `fill` does not serve here: for any type it asks for a clone that cannot fail, which `Copy`
// does not promise.
fn clear<T: Copy>(row: &mut [T], at: usize, count: usize, zero: T)
    requires { at + count ≤ length row.old }
    ensures { row.new ≡ paste row.old at (replicate count zero) count }
{
    for i in 0..count {
        row[at + i] = zero;
    }
}

// The new node's keys.
fn write_row(nodes: &[u32], keys: &mut [u32], n: Node)
    requires { RowReady nodes.now keys.old n }
    ensures { keys.new ≡ paste keys.old n.first (new_keys nodes.now keys.old n) n.count }
{
    if n.kind_of() == Kind::Unit {
        write_count(keys, n.first, n.count);
    } else {
        let l = rows::node_at(nodes, n.left);
        let r = rows::node_at(nodes, n.right);
        let children = Children {
            left: Child {
                node: l,
                mul: n.lmul,
            },
            right: Child {
                node: r,
                mul: n.rmul,
            },
        };
        children.write_keys(keys, n.first, n.count);
    }
}

pub fn inner(
    nodes: &mut [u32],
    inputs: &[i32],
    keys: &mut [u32],
    lits: &mut [i32],
    marks: &mut [u8],
    clauses: usize,
    c: Counters,
    j: Pair,
) -> Result<Added, Refusal>
    ensures { (result ≡ inner_added (inner_plan nodes.old inputs.now keys.old lits.old marks.old clauses c j) c)
        × (nodes.new ≡ inner_nodes (inner_plan nodes.old inputs.now keys.old lits.old marks.old clauses c j) nodes.old c)
        × (keys.new ≡ inner_keys (inner_plan nodes.old inputs.now keys.old lits.old marks.old clauses c j) nodes.old keys.old)
        × (lits.new ≡ inner_lits (inner_plan nodes.old inputs.now keys.old lits.old marks.old clauses c j) lits.old)
        × (marks.new ≡ inner_marks (inner_plan nodes.old inputs.now keys.old lits.old marks.old clauses c j) marks.old) }
{
    let n = inner_plan(nodes, inputs, keys, lits, marks, clauses, c, j)?;
    write_row(nodes, keys, n);
    clear(lits, n.first, n.count, 0);
    clear(marks, n.first, n.count, 0);
    grow::put_node(nodes, c.nodes, n);
    Ok(Added {
        id: c.nodes,
        counters: Counters {
            nodes: c.nodes + 1,
            cells: n.first + n.count,
            ..c
        },
    })
}
