// The values of the nodes under an assignment, and whether an assignment is one.
#![tactic(auto)]

ghost use Rattle.std.specs.Prelude.{◌≡◌, ℕ, ◌+◌, ◌*◌, ◌<◌, ◌≤◌, length, get_or, nat_abs, pos};
ghost use Rattle.paper.specs.Limits.{node_limit, mul_limit};
ghost use Rattle.paper.specs.Rows.{node_at};
ghost use Rattle.paper.specs.Upkeep.{byte_at, truth_of, worth_of, value_of, assigned_ok};
ghost use Rattle.worth.specs.Value.{Ready, Sound};

use paper::{Kind, Node};

// The byte of variable v.
#[tactic(auto, unfolding(paper::specs::Upkeep::byte_at))]
fn byte_at(assign: &[u8], v: usize) -> usize
    ensures { result ≡ byte_at assign.now v }
{
    if v == 0 {
        return 0;
    }
    let k = v - 1;
    if k < assign.len() {
        assign[k] as usize
    } else {
        0
    }
}

// 1 where the literal is true, else 0.
#[tactic(auto, unfolding(paper::specs::Upkeep::truth_of))]
fn truth(assign: &[u8], lit: i32) -> usize
    ensures { result ≡ truth_of assign.now lit }
{
    let b = byte_at(assign, rows::variable(lit) as usize);
    let neg = rows::is_negative(lit);
    if b == 1 {
        if neg { 0 } else { 1 }
    } else {
        if neg { 1 } else { 0 }
    }
}

// The children's values times the multipliers, added.
fn from_children(work: &[i32], n: Node) -> usize
    requires { (n.left < length work.now) × (n.right < length work.now) × (n.lmul ≤ mul_limit) × (n.rmul ≤ mul_limit) }
    ensures { result ≡ n.lmul * nat_abs (get_or work.now n.left (pos 0)) + n.rmul * nat_abs (get_or work.now n.right (pos 0)) }
{
    let left = n.left;
    let right = n.right;
    let l = rows::variable(work[left]) as usize;
    let r = rows::variable(work[right]) as usize;
    n.lmul * l + n.rmul * r
}

#[tactic(auto, unfolding(paper::specs::Upkeep::worth_of))]
fn node_value(nodes: &[u32], inputs: &[i32], assign: &[u8], work: &[i32], i: usize) -> usize
    requires { Ready nodes.now (length inputs.now) (length work.now) i }
    ensures { result ≡ worth_of (node_at nodes.now i) inputs.now assign.now
        (nat_abs (get_or work.now (node_at nodes.now i).left (pos 0))) (nat_abs (get_or work.now (node_at nodes.now i).right (pos 0))) }
{
    let n = rows::node_at(nodes, i);
    match n.kind_of() {
        Kind::Leaf => truth(assign, inputs[n.first]),
        Kind::Dummy => 0,
        _ => from_children(work, n),
    }
}

// The values of the nodes 0 to id, each after its children; the answer is the last.
pub fn values(nodes: &[u32], inputs: &[i32], assign: &[u8], work: &mut [i32], id: usize) -> usize
    requires id_in_bounds { (id < length work.old) × (id < node_limit) }
    requires sound { Sound nodes.now inputs.now assign.now id }
    ensures { result ≡ value_of (id + 1) nodes.now inputs.now assign.now id }
{
    for i in 0..id + 1 {
        let v = node_value(nodes, inputs, assign, work, i);
        work[i] = v as i32;
    }
    rows::variable(work[id]) as usize
}

// The first n bytes are there, and each is 0 or 1. No test ends the loop: the machine then makes several at once.
pub fn assigned(assign: &[u8], n: usize) -> bool
    ensures { result ≡ assigned_ok assign.now n }
{
    if assign.len() < n {
        return false;
    }
    let mut ok = true;
    for b in &assign[..n] {
        ok = ok & (*b <= 1);
    }
    ok
}
