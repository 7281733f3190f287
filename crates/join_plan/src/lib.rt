// What adding an inner node comes to: the node, or why not. It only reads; the crate `join` writes.
#![tactic(auto)]

ghost use Rattle.std.specs.Prelude.{◌≡◌, ◌≤◌};
ghost use Rattle.paper.specs.Limits.{cell_limit, mul_limit};
ghost use Rattle.paper.specs.Rows.{con_len, value_at};
ghost use Rattle.paper.specs.Join.{room_for, muls_ok, fit_plan, unit_plan, general_plan, inner_plan};
ghost use Rattle.keys.specs.Least.{Mono};

use keys::{Child, Children};
use paper::{
    CELL_LIMIT, Counters, DEPTH_LIMIT, KEY_LIMIT, Kind, MUL_LIMIT, Node, Pair, Refusal, Sizes,
};

#[tactic(auto, unfolding(paper::specs::Join::room_for))]
pub fn room(c: Counters, count: usize, s: Sizes) -> bool
    ensures { result ≡ room_for c count s }
{
    grow::room_for_node(c.nodes, s.nodes)
        & table::fits_in(c.cells, count, CELL_LIMIT)
        & table::fits_in(c.cells, count, s.keys)
        & table::fits_in(c.cells, count, s.lits)
        & table::fits_in(c.cells, count, s.marks)
}

#[tactic(auto, unfolding(paper::specs::Join::muls_ok))]
pub fn muls_ok(j: Pair, plain: bool) -> bool
    ensures { result ≡ muls_ok j plain }
{
    (1 <= j.lmul)
        & (j.lmul <= MUL_LIMIT)
        & (1 <= j.rmul)
        & (j.rmul <= MUL_LIMIT)
        & (!plain | (j.lmul != j.rmul) | (j.lmul == 1))
}

// Depth, then room.
#[tactic(auto, unfolding(paper::specs::Join::fit_plan))]
fn fit_plan(
    kind: usize,
    j: Pair,
    l: Node,
    r: Node,
    c: Counters,
    count: usize,
    s: Sizes,
) -> Result<Node, Refusal>
    ensures { result ≡ fit_plan kind j l r c count s }
{
    let d = l.depth.max(r.depth);
    if DEPTH_LIMIT <= d {
        return Err(Refusal::TooDeep);
    }
    if room(c, count, s) {
        Ok(Node {
            kind,
            left: j.left,
            lmul: j.lmul,
            right: j.right,
            rmul: j.rmul,
            first: c.cells,
            count,
            depth: d + 1,
        })
    } else {
        Err(Refusal::NoRoom)
    }
}

fn unit_plan(j: Pair, l: Node, r: Node, c: Counters, s: Sizes) -> Result<Node, Refusal>
    requires { (con_len l ≤ cell_limit) × (con_len r ≤ cell_limit) }
    ensures { result ≡ unit_plan j l r c s }
{
    let count = rows::con_len(l) + rows::con_len(r);
    fit_plan(Kind::Unit as usize, j, l, r, c, count, s)
}

// 8 from the two counts, 9 from the two largest values, then the fit. A count of more cells than are left is told by one more
// than those.
#[tactic(auto, using(crate::proofs::Plans::fit_min, crate::proofs::Largest::none_counts, crate::proofs::Largest::within_largest), unfolding(paper::specs::Join::keys_plan))]
fn general_plan(
    keys: &[u32],
    j: Pair,
    l: Node,
    r: Node,
    c: Counters,
    s: Sizes,
) -> Result<Node, Refusal>
    requires lmul_le_mul_limit { (j.lmul ≤ mul_limit) × (j.rmul ≤ mul_limit) × (c.cells ≤ cell_limit) }
    requires mono { (Mono (con_len l) (λ k. value_at keys.now l k)) × (Mono (con_len r) (λ k. value_at keys.now r k)) }
    ensures { result ≡ general_plan keys.now j l r c s }
{
    let nl = rows::con_len(l);
    let nr = rows::con_len(r);
    if (nl == 0) & (nr == 0) {
        return Err(Refusal::NoValue);
    }
    let children = Children {
        left: Child {
            node: l,
            mul: j.lmul,
        },
        right: Child {
            node: r,
            mul: j.rmul,
        },
    };
    let most = children.left.largest(keys) + children.right.largest(keys);
    if KEY_LIMIT < most {
        return Err(Refusal::KeyTooLarge);
    }
    let top = CELL_LIMIT - c.cells + 1;
    let count = children.count_keys(keys, top);
    fit_plan(Kind::General as usize, j, l, r, c, count, s)
}

#[tactic(auto, unfolding(paper::specs::Join::inner_plan, paper::specs::Join::join_plan))]
pub fn inner_plan(
    nodes: &[u32],
    inputs: &[i32],
    keys: &[u32],
    lits: &[i32],
    marks: &[u8],
    clauses: usize,
    c: Counters,
    j: Pair,
) -> Result<Node, Refusal>
    ensures { result ≡ inner_plan nodes.now inputs.now keys.now lits.now marks.now clauses c j }
{
    if !table::table_ok(nodes, inputs, keys, lits, marks, clauses, c) {
        return Err(Refusal::TableFails);
    }
    if (c.nodes <= j.left) | (c.nodes <= j.right) {
        return Err(Refusal::NoSuchNode);
    }
    let l = rows::node_at(nodes, j.left);
    let r = rows::node_at(nodes, j.right);
    let plain = !l.is_general() & !r.is_general();
    if !muls_ok(j, plain) {
        return Err(Refusal::BadMultiplier);
    }
    let s = Sizes {
        nodes: nodes.len(),
        keys: keys.len(),
        lits: lits.len(),
        marks: marks.len(),
    };
    if plain & (j.lmul == j.rmul) {
        unit_plan(j, l, r, c, s)
    } else {
        general_plan(keys, j, l, r, c, s)
    }
}
