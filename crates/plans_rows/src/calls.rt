// The public calls of document 01, on the rows.
ghost use Rattle.std.specs.Prelude.{◌≡◌, ◌-◌, length, map, take};

use crate::Db;
use crate::db::{front, front_mut};
use paper::{Pair, Semantics};
use plans::{Answer, Call, Said};

// The digits as bytes, as many as the row holds.
fn bits_of<'a>(digits: &[u8], bits: &'a mut [u8]) -> &'a [u8]
    ensures { result.now ≡ map (λ d. d - 48) (take (length bits.old) digits.now) }
{
    let most = digits.len().min(bits.len());
    for i in 0..most {
        bits[i] = digits[i].saturating_sub(b'0');
    }
    &bits[..most]
}

impl Db {
    // What the call says; the counters are those after it.
    pub fn call(&mut self, call: Call<'_>) -> Said
        ensures { self.new.counters ≡ result.counters }
    {
        let said = self.called(call);
        self.counters = said.counters;
        said
    }

    fn called(&mut self, call: Call<'_>) -> Said {
        match call {
            Call::Fresh(first, last) => door::fresh(first, last).said(self.counters),
            Call::Leaf(x) => self.leaf(x),
            Call::Dummy => self.dummy(),
            Call::Join(j) => self.inner(j),
            Call::Count(id, i, semantics) => self.define_unweighted(id, i, semantics),
            Call::Sum(id, v) => self.define_weighted(id, v),
            Call::Reserve(id) => self.reserve_vars(id),
            Call::Reset => self.reset(),
            Call::Clear => self.empty_clauses(),
            Call::Value(id, digits) => self.value(id, digits),
            Call::Check => self.check(),
        }
    }

    fn leaf(&mut self, x: i32) -> Said {
        let (c, n) = (self.counters, self.lent);
        door::leaf(
            front_mut(&mut self.nodes, n.nodes),
            front_mut(&mut self.inputs, n.inputs),
            front(&self.keys, n.keys),
            front(&self.lits, n.lits),
            front(&self.marks, n.marks),
            front(&self.clauses, n.clauses),
            c,
            x,
        )
        .said(c)
    }

    fn dummy(&mut self) -> Said {
        let (c, n) = (self.counters, self.lent);
        door::dummy(
            front_mut(&mut self.nodes, n.nodes),
            front(&self.inputs, n.inputs),
            front(&self.keys, n.keys),
            front(&self.lits, n.lits),
            front(&self.marks, n.marks),
            front(&self.clauses, n.clauses),
            c,
        )
        .said(c)
    }

    fn inner(&mut self, j: Pair) -> Said {
        let (c, n) = (self.counters, self.lent);
        door::inner(
            front_mut(&mut self.nodes, n.nodes),
            front(&self.inputs, n.inputs),
            front_mut(&mut self.keys, n.keys),
            front_mut(&mut self.lits, n.lits),
            front_mut(&mut self.marks, n.marks),
            front(&self.clauses, n.clauses),
            c,
            j,
        )
        .said(c)
    }

    fn define_unweighted(&mut self, id: usize, i: usize, semantics: Semantics) -> Said {
        let (c, n) = (self.counters, self.lent);
        door::define_unweighted(
            front(&self.nodes, n.nodes),
            front(&self.inputs, n.inputs),
            front(&self.keys, n.keys),
            front_mut(&mut self.lits, n.lits),
            front_mut(&mut self.marks, n.marks),
            front_mut(&mut self.clauses, n.clauses),
            front_mut(&mut self.ints, n.ints),
            front_mut(&mut self.bytes, n.bytes),
            c,
            id,
            i,
            semantics,
        )
        .said(c)
    }

    fn define_weighted(&mut self, id: usize, v: usize) -> Said {
        let (c, n) = (self.counters, self.lent);
        door::define_weighted(
            front(&self.nodes, n.nodes),
            front(&self.inputs, n.inputs),
            front(&self.keys, n.keys),
            front_mut(&mut self.lits, n.lits),
            front_mut(&mut self.marks, n.marks),
            front_mut(&mut self.clauses, n.clauses),
            front_mut(&mut self.ints, n.ints),
            front_mut(&mut self.bytes, n.bytes),
            c,
            id,
            v,
        )
        .said(c)
    }

    fn reserve_vars(&mut self, root: usize) -> Said {
        let (c, n) = (self.counters, self.lent);
        door::reserve_vars(
            front(&self.nodes, n.nodes),
            front(&self.inputs, n.inputs),
            front(&self.keys, n.keys),
            front_mut(&mut self.lits, n.lits),
            front(&self.marks, n.marks),
            front(&self.clauses, n.clauses),
            front_mut(&mut self.ints, n.ints),
            front_mut(&mut self.bytes, n.bytes),
            c,
            root,
        )
        .said(c)
    }

    fn reset(&mut self) -> Said {
        let (c, n) = (self.counters, self.lent);
        door::reset(
            front(&self.nodes, n.nodes),
            front(&self.inputs, n.inputs),
            front(&self.keys, n.keys),
            front(&self.lits, n.lits),
            front_mut(&mut self.marks, n.marks),
            front(&self.clauses, n.clauses),
            c,
        )
        .said(c)
    }

    fn empty_clauses(&self) -> Said {
        let (c, n) = (self.counters, self.lent);
        door::empty_clauses(
            front(&self.nodes, n.nodes),
            front(&self.inputs, n.inputs),
            front(&self.keys, n.keys),
            front(&self.lits, n.lits),
            front(&self.marks, n.marks),
            front(&self.clauses, n.clauses),
            c,
        )
        .said(c)
    }

    fn value(&mut self, id: usize, digits: &[u8]) -> Said {
        let (c, n) = (self.counters, self.lent);
        let assign = bits_of(digits, &mut self.bits);
        door::value(
            front(&self.nodes, n.nodes),
            front(&self.inputs, n.inputs),
            front(&self.keys, n.keys),
            front(&self.lits, n.lits),
            front(&self.marks, n.marks),
            front(&self.clauses, n.clauses),
            front_mut(&mut self.ints, n.ints),
            front_mut(&mut self.bytes, n.bytes),
            c,
            id,
            assign,
        )
        .said(c)
    }

    fn check(&self) -> Said {
        let (c, n) = (self.counters, self.lent);
        door::check(
            front(&self.nodes, n.nodes),
            front(&self.inputs, n.inputs),
            front(&self.keys, n.keys),
            front(&self.lits, n.lits),
            front(&self.marks, n.marks),
            front(&self.clauses, n.clauses),
            c,
        )
        .said(c)
    }
}
