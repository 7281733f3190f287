// What a demand of an output comes to: what of it is missing, and what is to be asked of the children. The crate `count` walks
// and emits.
#![tactic(auto)]

ghost use Rattle.std.specs.Prelude.{◌≡◌, cond, ◌<◌, ◌^◌};
ghost use Rattle.paper.specs.Rows.{node_at};
ghost use Rattle.paper.specs.Plain.{mark_of, mark_byte, has_if, has_only, missing_of, if_span, only_span, no_span, ranges_of, plan_two, plan_unit};

use paper::{Mark, Node, Precond, Ranges, Span, Todo, Want};
use rows::{con_len, node_at};

// "marks (0 none, 1 If, 2 OnlyIf, 3 both)"
#[tactic(auto, unfolding(paper::specs::Plain::mark_of))]
fn mark_of(m: u8) -> Mark
    ensures { result ≡ mark_of m }
{
    match m {
        0 => Mark::Unmarked,
        1 => Mark::MarkedIf,
        2 => Mark::MarkedOnlyIf,
        _ => Mark::MarkedBoth,
    }
}

// The directions that have been asked for.
#[tactic(auto, unfolding(paper::specs::Plain::has_if, paper::specs::Plain::has_only))]
fn asked(m: Mark) -> Want
    ensures { (result.fi ≡ has_if m) × (result.fo ≡ has_only m) }
{
    match m {
        Mark::Unmarked => Want {
            fi: false,
            fo: false,
        },
        Mark::MarkedIf => Want::IF,
        Mark::MarkedOnlyIf => Want::ONLY_IF,
        Mark::MarkedBoth => Want::BOTH,
    }
}

#[tactic(auto, unfolding(paper::specs::Plain::mark_byte))]
fn mark_byte(i: bool, o: bool) -> u8
    ensures { result ≡ mark_byte i o }
{
    match (i, o) {
        (false, false) => 0,
        (true, false) => 1,
        (false, true) => 2,
        (true, true) => 3,
    }
}

// "Missing marks only": what of the demand is missing, and the mark once it is met.
#[tactic(auto, unfolding(paper::specs::Plain::missing_of))]
pub fn missing(m: u8, want: Want) -> Todo
    ensures { result ≡ missing_of m want }
{
    let old = asked(mark_of(m));
    let mark = mark_byte(want.fi | old.fi, want.fo | old.fo);
    let want = Want {
        fi: want.fi & !old.fi,
        fo: want.fo & !old.fo,
    };
    Todo { want, mark }
}

// The outputs of a child with a outputs beside one with b that output i needs: If ..
#[tactic(auto, unfolding(paper::specs::Plain::if_span))]
fn if_span(a: usize, b: usize, i: usize) -> Span
    requires { i < 2 ^ 63 }
    ensures { result ≡ if_span a b i }
{
    let x = i + 1 - b.min(i + 1);
    let to = a.min(i + 1);
    if x == 0 {
        return Span { from: 0, to };
    }
    Span { from: x - 1, to }
}

// .. and OnlyIf.
#[tactic(auto, unfolding(paper::specs::Plain::only_span))]
fn only_span(a: usize, b: usize, i: usize) -> Span
    requires { i < 2 ^ 63 }
    ensures { result ≡ only_span a b i }
{
    let from = i - b.min(i);
    let to = a.min(i + 1);
    Span { from, to }
}

// The span where its direction is missing, else none.
fn wanted(on: bool, span: Span) -> Span
    ensures { result ≡ cond on span no_span }
{
    if on { span } else { Span { from: 0, to: 0 } }
}

#[tactic(auto, unfolding(paper::specs::Plain::ranges_of))]
fn ranges_of(n: Node, a: usize, b: usize, w: Want, i: usize) -> Ranges
    requires { i < 2 ^ 63 }
    ensures { result ≡ ranges_of n a b w i }
{
    let left_if = wanted(w.fi, if_span(a, b, i));
    let right_if = wanted(w.fi, if_span(b, a, i));
    let left_only = wanted(w.fo, only_span(a, b, i));
    let right_only = wanted(w.fo, only_span(b, a, i));
    Ranges {
        left: n.left,
        right: n.right,
        left_if,
        right_if,
        left_only,
        right_only,
    }
}

// "One child dummy: demand the missing part at i of the other child"; else the ranges.
#[tactic(auto, unfolding(paper::specs::Plain::plan_two))]
fn precond_two(n: Node, l: Node, r: Node, i: usize, todo: Todo) -> Precond
    requires { i < 2 ^ 63 }
    ensures { result ≡ plan_two n l r i todo }
{
    if l.is_dummy() {
        return Precond::Pass(n.right, todo);
    }
    if r.is_dummy() {
        return Precond::Pass(n.left, todo);
    }
    let rs = ranges_of(n, con_len(l), con_len(r), todo.want, i);
    Precond::Continue(rs, todo)
}

// "None missing: answer the literal, do nothing."
#[tactic(auto, unfolding(paper::specs::Plain::plan_unit))]
pub fn precond_unit(nodes: &[u32], n: Node, i: usize, todo: Todo) -> Precond
    requires { i < 2 ^ 63 }
    ensures { result ≡ plan_unit n (node_at nodes.now n.left) (node_at nodes.now n.right) i todo }
{
    let l = node_at(nodes, n.left);
    let r = node_at(nodes, n.right);
    if todo.want.fi | todo.want.fo {
        precond_two(n, l, r, i, todo)
    } else {
        Precond::Return
    }
}
