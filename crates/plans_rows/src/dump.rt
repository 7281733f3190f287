// What `dump` says: the number 0, and the nodes in use that lie in the row, joined by ` ; `.
ghost use Rattle.std.specs.Prelude.{◌≡◌, ◌+◌, ◌*◌, ◌≤◌, ◌∷◌, ◌++◌, decimal, take, drop, length, IsAscii};
ghost use Rattle.plans_rows.specs.Dump.{cell_text, cells_text, inner_text};
ghost use Rattle.plans_rows.specs.Rows.{node_count};

use crate::Db;
use crate::db::front;
use paper::{NODE_WORDS, Node};
use plans::{bytes_before, literal_before, number_before};
use std::{fmt, str};

// The entries from `first` on, as many as `count` where there are as many.
fn part<T>(row: &[T], first: usize, count: usize) -> &[T]
    ensures { result.now ≡ take count (drop first row.now) }
{
    let rest = row.get(first..).unwrap_or(&[]);
    rest.get(..count).unwrap_or(rest)
}

// A node is put together from its last part to its first, with as many of its cells as a page always holds, and written at once:
// a write costs more than the bytes of a part.
const PAGE: usize = 480;

const CELLS: usize = 12;

// No cell takes more.
const CELL: usize = 27;

// Nor does what stands before the cells.
const HEAD: usize = 125;

// The cell, in front of what stands from `at` on. Beside its own room there is that of the longest number, which
// `number_before` asks for.
fn cell_before(text: &mut [u8; PAGE], at: usize, key: u32, lit: i32, mark: u8) -> usize
    requires room { CELL + 20 ≤ at }
    requires inside { at ≤ PAGE }
    ensures within { result ≤ at }
    ensures short { at ≤ result + CELL }
    ensures written { drop result text.new ≡ cell_text key lit mark ++ drop at text.old }
    ensures ascii { IsAscii (drop at text.old) → IsAscii (drop result text.new) }
{
    let start = number_before(text, at, mark as u64);
    let start = bytes_before(text, start, b":");
    let start = literal_before(text, start, lit);
    let start = bytes_before(text, start, b":");
    let start = number_before(text, start, key as u64);
    bytes_before(text, start, b" ")
}

// The cells at the end of the page, and where they start.
fn cells_before(text: &mut [u8; PAGE], keys: &[u32], lits: &[i32], marks: &[u8]) -> usize
    requires few { length keys.now ≤ CELLS }
    requires lits { length lits.now ≡ length keys.now }
    requires marks { length marks.now ≡ length keys.now }
    ensures within { result ≤ PAGE }
    ensures room { PAGE ≤ result + CELLS * CELL }
    ensures written { drop result text.new ≡ cells_text keys.now lits.now marks.now }
    ensures ascii { IsAscii (drop result text.new) }
{
    let mut at = PAGE;
    for i in (0..keys.len()).rev() {
        at = cell_before(text, at, keys[i], lits[i], marks[i]);
    }
    at
}

// A space, and the number.
fn spaced_before(text: &mut [u8; PAGE], at: usize, n: usize) -> usize
    requires room { 21 ≤ at }
    requires inside { at ≤ PAGE }
    ensures within { result ≤ at }
    ensures short { at ≤ result + 21 }
    ensures written { drop result text.new ≡ 32 ∷ decimal n ++ drop at text.old }
    ensures ascii { IsAscii (drop at text.old) → IsAscii (drop result text.new) }
{
    let start = number_before(text, at, n as u64);
    bytes_before(text, start, b" ")
}

// What an inner node has before its cells.
fn inner_before(text: &mut [u8; PAGE], at: usize, kind: &[u8], node: Node) -> usize
    requires kind { length kind.now ≤ 8 }
    requires letters { IsAscii kind.now }
    requires room { HEAD ≤ at }
    requires inside { at ≤ PAGE }
    ensures within { result ≤ at }
    ensures short { at ≤ result + HEAD }
    ensures written { drop result text.new ≡ kind.now ++ inner_text node (drop at text.old) }
    ensures ascii { IsAscii (drop at text.old) → IsAscii (drop result text.new) }
{
    let start = bytes_before(text, at, b" cells");
    let start = spaced_before(text, start, node.depth);
    let start = bytes_before(text, start, b" depth");
    let start = spaced_before(text, start, node.rmul);
    let start = spaced_before(text, start, node.right);
    let start = spaced_before(text, start, node.lmul);
    let start = spaced_before(text, start, node.left);
    bytes_before(text, start, kind)
}

// What a node has before its cells. A table that fails the check may have a kind that is none.
fn head_before(text: &mut [u8; PAGE], at: usize, node: Node, input: i32) -> usize
    requires room { HEAD ≤ at }
    requires inside { at ≤ PAGE }
    ensures within { result ≤ at }
    ensures short { at ≤ result + HEAD }
    ensures ascii { IsAscii (drop at text.old) → IsAscii (drop result text.new) }
{
    match node.kind {
        0 => {
            let start = literal_before(text, at, input);
            bytes_before(text, start, b" leaf ")
        }
        1 => inner_before(text, at, b" unit", node),
        2 => inner_before(text, at, b" general", node),
        3 => bytes_before(text, at, b" dummy"),
        _ => inner_before(text, at, b" other", node),
    }
}

// The node's id, with what stands before it: the number of the answer, or what parts it from the node before.
fn id_before(text: &mut [u8; PAGE], at: usize, id: usize) -> usize
    requires room { 23 ≤ at }
    requires inside { at ≤ PAGE }
    ensures within { result ≤ at }
    ensures ascii { IsAscii (drop at text.old) → IsAscii (drop result text.new) }
{
    let start = spaced_before(text, at, id);
    if id == 0 {
        bytes_before(text, start, b"0")
    } else {
        bytes_before(text, start, b" ;")
    }
}

// The text from `at` on.
fn text_from(text: &[u8; PAGE], at: usize) -> &str
    requires inside { at ≤ PAGE }
    requires letters { IsAscii (drop at text.now) }
    ensures { result.now ≡ drop at text.now }
{
    str::from_utf8(&text[at..]).unwrap()
}

impl Db {
    // The nodes in use that lie in what is lent of their row.
    pub fn node_count(&self) -> usize
        ensures { result ≡ node_count self.now }
    {
        let nodes = front(&self.nodes, self.lent.nodes);
        self.counters.nodes.min(nodes.len() / NODE_WORDS)
    }

    // The cells of an inner node that lie in what is lent of the three rows. A leaf and the dummy have none.
    fn cells(&self, node: Node) -> (&[u32], &[i32], &[u8])
        ensures lits { length result.1.now ≡ length result.0.now }
        ensures marks { length result.2.now ≡ length result.0.now }
    {
        let lent = self.lent;
        let count = if node.is_leaf() || node.is_dummy() {
            0
        } else {
            node.count
        };
        let keys = part(front(&self.keys, lent.keys), node.first, count);
        let lits = part(front(&self.lits, lent.lits), node.first, count);
        let marks = part(front(&self.marks, lent.marks), node.first, count);
        let most = keys.len().min(lits.len()).min(marks.len());
        (&keys[..most], &lits[..most], &marks[..most])
    }

    // A table that fails the check may have inputs that are not in the row.
    fn fmt_node<W: fmt::Write>(
        &self,
        f: &mut fmt::Formatter<W>,
        text: &mut [u8; PAGE],
        id: usize,
        node: Node,
    ) -> fmt::Result {
        let inputs = front(&self.inputs, self.lent.inputs);
        let input = inputs.get(node.first).copied().unwrap_or(0);
        let (keys, lits, marks) = self.cells(node);
        let first = keys.len().min(CELLS);
        let at = cells_before(text, &keys[..first], &lits[..first], &marks[..first]);
        let at = head_before(text, at, node, input);
        let at = id_before(text, at, id);
        f.write_str(text_from(text, at))?;
        for from in (first..keys.len()).step_by(CELLS) {
            let to = keys.len().min(from + CELLS);
            let at = cells_before(text, &keys[from..to], &lits[from..to], &marks[from..to]);
            f.write_str(text_from(text, at))?;
        }
        Ok(())
    }
}

impl fmt::Display for Db {
    fn fmt<W: fmt::Write>(&self, f: &mut fmt::Formatter<W>) -> fmt::Result {
        let count = self.node_count();
        if count == 0 {
            return f.write_str("0");
        }
        let nodes = front(&self.nodes, self.lent.nodes);
        let mut text = [0; PAGE];
        for id in 0..count {
            self.fmt_node(f, &mut text, id, rows::node_at(nodes, id))?;
        }
        Ok(())
    }
}
