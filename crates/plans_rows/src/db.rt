// The rows, of which the fronts are lent, with the counters; and the commands that are for the plans alone: `rows`, `poke`,
// `set`. Memory is taken once, when the rows are made.
ghost use Rattle.std.specs.Prelude.{◌≡◌, ◌-◌, ◌<◌, ◌≤◌, ◌↔◌, [], IsOk, IfOk, OnOk, OnErr, drop, length, min, replicate, take, slice_set};

use paper::{CELL_LIMIT, Counters, NODE_LIMIT, NODE_WORDS};
use plans::{Counter, Entry, LONGEST, Lengths, LineError};
use std::alloc::{AllocError, Global};

// The longest rows: one node, input and cell longer than the limits, so that it is a limit that refuses.
pub const OWN: Lengths = Lengths {
    nodes: NODE_WORDS * (NODE_LIMIT + 1),
    inputs: NODE_LIMIT + 1,
    keys: CELL_LIMIT + 1,
    lits: CELL_LIMIT + 1,
    marks: CELL_LIMIT + 1,
    clauses: 1048576,
    ints: CELL_LIMIT + 1,
    bytes: CELL_LIMIT + 1,
};

// What the working area holds at first, which is no part of an answer.
#[derive(Clone, Copy)]
pub struct Work {
    pub int: i32,
    pub byte: u8,
}

// A longer row than is lent keeps what lies past its front, which no call and no command sees.
#[derive(Drop)]
pub struct Db {
    pub nodes: Vec<u32>,
    pub inputs: Vec<i32>,
    pub keys: Vec<u32>,
    pub lits: Vec<i32>,
    pub marks: Vec<u8>,
    pub clauses: Vec<i32>,
    pub ints: Vec<i32>,
    pub bytes: Vec<u8>,
    // The assignment of `value`, a byte for each digit of its line.
    pub bits: Vec<u8>,
    // How much of each row is lent.
    pub lent: Lengths,
    pub counters: Counters,
}

const AT_START: Counters = Counters {
    first: 0,
    next: 0,
    last: 0,
    nodes: 0,
    inputs: 0,
    cells: 0,
    words: 0,
};

// The first n entries, or all where there are fewer.
pub(crate) fn front<T>(row: &[T], n: usize) -> &[T]
    ensures { result.now ≡ take n row.now }
{
    row.get(..n).unwrap_or(row)
}

// The same, to write.
pub(crate) fn front_mut<T>(row: &mut [T], n: usize) -> &mut [T]
    ensures { result.now ≡ take n row.old }
{
    let most = n.min(row.len());
    &mut row[..most]
}

fn clear<T: Clone>(row: &mut [T], n: usize, zero: T)
    requires { T.is_infallible zero }
    ensures len { length row.new ≡ length row.old }
    ensures zeros { ((x : T) → T.is_clone zero x → x ≡ zero) → n ≤ length row.old → take n row.new ≡ replicate n zero }
{
    let most = n.min(row.len());
    row[..most].fill(zero);
}

fn put<T: Drop>(row: &mut [T], lent: usize, i: usize, x: T) -> Result<(), LineError>
    ensures ok { OnOk result (row.new ≡ slice_set row.old i x) }
    ensures err { OnErr result (row.new ≡ row.old) }
    ensures inside { IsOk result ↔ (i < min lent (length row.old)) }
{
    // Through `get_mut` the clauses do not close.
    if i >= lent.min(row.len()) {
        return Err(LineError::Unreadable);
    }
    row[i] = x;
    Ok(())
}

// A working area cannot be longer than the program's own.
fn within(len: usize, own: usize) -> Result<usize, LineError>
    ensures same { IfOk result (λ n. n ≡ len) }
    ensures inside { IsOk result ↔ (len ≤ own) }
{
    if len > own {
        return Err(LineError::Unreadable);
    }
    Ok(len)
}

impl Db {
    ghost use Rattle.plans.specs.Commands.{Fit};
    ghost use Rattle.plans_rows.specs.Rows.{lengths_of, whole, at_start, counted, Holds, Cleared};

    // Rows and counters all 0, and the whole of each row lent.
    pub fn new(alloc: Global, n: Lengths, work: Work) -> Result<Db, AllocError>
        ensures lengths { IfOk result (λ db. lengths_of db ≡ n) }
        ensures whole { IfOk result (λ db. whole db ≡ n) }
        ensures counters { IfOk result (λ db. db.counters ≡ at_start) }
    {
        Ok(Db {
            nodes: vec![in alloc; 0; n.nodes]?,
            inputs: vec![in alloc; 0; n.inputs]?,
            keys: vec![in alloc; 0; n.keys]?,
            lits: vec![in alloc; 0; n.lits]?,
            marks: vec![in alloc; 0; n.marks]?,
            clauses: vec![in alloc; 0; n.clauses]?,
            ints: vec![in alloc; work.int; n.ints]?,
            bytes: vec![in alloc; work.byte; n.bytes]?,
            bits: vec![in alloc; 0; LONGEST]?,
            lent: n,
            counters: AT_START,
        })
    }

    fn lengths(&self) -> Lengths
        ensures { result ≡ whole self.now }
    {
        Lengths {
            nodes: self.nodes.len(),
            inputs: self.inputs.len(),
            keys: self.keys.len(),
            lits: self.lits.len(),
            marks: self.marks.len(),
            clauses: self.clauses.len(),
            ints: self.ints.len(),
            bytes: self.bytes.len(),
        }
    }

    // Other lengths of the same rows, all 0. What the working area holds stays as it is.
    pub fn lend(&mut self, n: Lengths) -> Result<(), LineError>
        ensures ok { OnOk result (lengths_of self.new ≡ n) }
        ensures cleared { OnOk result (Cleared self.new) }
        ensures inside { IsOk result ↔ (Fit n OWN × Fit n (whole self.old)) }
        ensures err { OnErr result (self.new ≡ self.old) }
    {
        if !n.fit(OWN) || !n.fit(self.lengths()) {
            return Err(LineError::Unreadable);
        }
        clear(&mut self.nodes, n.nodes, 0);
        clear(&mut self.inputs, n.inputs, 0);
        clear(&mut self.keys, n.keys, 0);
        clear(&mut self.lits, n.lits, 0);
        clear(&mut self.marks, n.marks, 0);
        clear(&mut self.clauses, n.clauses, 0);
        self.lent = n;
        self.counters = AT_START;
        Ok(())
    }

    pub fn poke(&mut self, i: usize, entry: Entry) -> Result<(), LineError>
        ensures ok { OnOk result (Holds entry i self.new) }
        ensures lengths { lengths_of self.new ≡ lengths_of self.old }
        ensures whole { whole self.new ≡ whole self.old }
        ensures counters { self.new.counters ≡ self.old.counters }
    {
        let lent = self.lent;
        match entry {
            Entry::Words(x) => put(&mut self.nodes, lent.nodes, i, x),
            Entry::Inputs(x) => put(&mut self.inputs, lent.inputs, i, x),
            Entry::Keys(x) => put(&mut self.keys, lent.keys, i, x),
            Entry::Lits(x) => put(&mut self.lits, lent.lits, i, x),
            Entry::Marks(x) => put(&mut self.marks, lent.marks, i, x),
            Entry::Clauses(x) => put(&mut self.clauses, lent.clauses, i, x),
        }
    }

    pub fn set(&mut self, counter: Counter, v: usize) -> Result<(), LineError>
        ensures ok { OnOk result (counted counter self.new ≡ v) }
    {
        match counter {
            Counter::First => self.counters.first = v,
            Counter::Next => self.counters.next = v,
            Counter::Last => self.counters.last = v,
            Counter::Nodes => self.counters.nodes = v,
            Counter::Ins => self.counters.inputs = v,
            Counter::Cells => self.counters.cells = v,
            Counter::Length => self.counters.words = v,
            Counter::WorkInt => self.lent.ints = within(v, OWN.ints.min(self.ints.len()))?,
            Counter::WorkByte => self.lent.bytes = within(v, OWN.bytes.min(self.bytes.len()))?,
        }
        Ok(())
    }

    // The words of the clause row from `from` on that are in use; none where they do not lie in what is lent of the row.
    pub fn clause_words(&self, from: usize) -> &[i32]
        ensures words { from ≤ self.now.counters.words → self.now.counters.words ≤ (lengths_of self.now).clauses
            → result.now ≡ take (self.now.counters.words - from) (drop from (take self.now.lent.clauses self.now.clauses.items)) }
        ensures none { (lengths_of self.now).clauses < self.now.counters.words → result.now ≡ [] }
    {
        let lent = front(&self.clauses, self.lent.clauses);
        lent.get(from..self.counters.words).unwrap_or(&[])
    }
}

#[cfg(test)]
mod tests {
    use super::*;
    use std::test::Fail;

    const ASKED: Lengths = Lengths {
        nodes: 16,
        inputs: 2,
        keys: 3,
        lits: 4,
        marks: 5,
        clauses: 6,
        ints: 7,
        bytes: 8,
    };

    // Whatever is lent of them, and is written to them.
    #[test]
    fn rows_keep_their_lengths(rt: HostRuntime) -> Result<(), Fail> {
        let mut db = Db::new(rt.alloc(), ASKED, Work { int: 0, byte: 0 })?;
        assert_eq!(rt; db.lengths(), ASKED);
        assert!(rt; db.poke(4, Entry::Marks(3)).is_ok());
        assert!(rt; db.poke(5, Entry::Marks(3)).is_err());
        assert_eq!(rt; db.marks.as_slice(), [0, 0, 0, 0, 3].as_slice());
        assert!(rt; db.lend(Lengths { marks: 4, ..ASKED }).is_ok());
        assert!(rt; db.poke(4, Entry::Marks(3)).is_err());
        assert_eq!(rt; db.lengths(), ASKED);
        Ok(())
    }
}
