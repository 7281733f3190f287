// Runs of the table check on the same tables, over the words and over the records. Each line is a table, with the verdict
// of each. The expected output is written from document 01.
#![tactic(auto)]

ghost use Rattle.std.specs.Prelude.{◌≡◌};
ghost use Rattle.records.specs.Table.{records_ok};

use paper::Counters;
use records::Record;

// The eight words of a node, as in the row of words.
fn words_of(node: Record) -> [u32; 8] {
    let Record {
        kind,
        left,
        lmul,
        right,
        rmul,
        first,
        count,
        depth,
    } = node;
    [kind, left, lmul, right, rmul, first, count, depth]
}

// A table of three nodes: the leaves 0 and 1, and what is tried as node 2; with two cells, and the counters F and next.
#[derive(Clone, Copy)]
struct Table {
    tried: Record,
    lits: [i32; 2],
    marks: [u8; 2],
    first: usize,
    next: usize,
}

const LEAF: Record = Record {
    kind: 0,
    left: 0,
    lmul: 0,
    right: 0,
    rmul: 0,
    first: 0,
    count: 0,
    depth: 1,
};

const UNIT: Record = Record {
    kind: 1,
    left: 0,
    lmul: 1,
    right: 1,
    rmul: 1,
    first: 0,
    count: 2,
    depth: 2,
};

// The unit, with no literal at its cells: the check passes.
const SOUND: Table = Table {
    tried: UNIT,
    lits: [0, 0],
    marks: [0, 0],
    first: 3,
    next: 3,
};

// The unit itself; a child id that is not smaller; a wrong first, count and depth; a kind that no node has.
const TRIED: [Record; 6] = [
    UNIT,
    Record { right: 2, ..UNIT },
    Record { first: 1, ..UNIT },
    Record { count: 3, ..UNIT },
    Record { depth: 3, ..UNIT },
    Record { kind: 9, ..UNIT },
];

// A literal with both marks, the last one given; a mark without a literal; a literal at next; and F 0.
const OTHERS: [Table; 4] = [
    Table {
        lits: [0, 3],
        marks: [0, 3],
        next: 4,
        ..SOUND
    },
    Table {
        lits: [0, 3],
        marks: [1, 3],
        next: 4,
        ..SOUND
    },
    Table {
        lits: [0, 4],
        marks: [0, 3],
        next: 4,
        ..SOUND
    },
    Table { first: 0, ..SOUND },
];

// The leaves' literals, and the keys of a unit over them.
const INPUTS: [i32; 2] = [1, 2];

const KEYS: [u32; 2] = [1, 2];

const CLAUSES: [i32; 8] = [0; 8];

fn check_three(
    nodes: [Record; 3],
    inputs: &[i32],
    keys: &[u32],
    lits: &[i32],
    marks: &[u8],
    clauses: &[i32],
    c: Counters,
) -> bool
    ensures { result ≡ records_ok nodes inputs.now keys.now lits.now marks.now clauses.now c }
{
    records::check_records(&nodes, inputs, keys, lits, marks, clauses, c)
}

impl Table {
    fn nodes(&self) -> [Record; 3] {
        [LEAF, Record { first: 1, ..LEAF }, self.tried]
    }

    fn counters(&self) -> Counters {
        Counters {
            first: self.first,
            next: self.next,
            last: 100,
            nodes: 3,
            inputs: 2,
            cells: 2,
            words: 0,
        }
    }

    fn words_ok(&self) -> bool {
        let words = self.nodes().map(words_of);
        table::table_ok(
            words.as_flattened(),
            &INPUTS,
            &KEYS,
            &self.lits,
            &self.marks,
            CLAUSES.len(),
            self.counters(),
        )
    }

    // Where standard output can't be written, nothing is said of it.
    fn say(&self, rt: &impl Print) {
        let words = u8::from(self.words_ok());
        let records = u8::from(check_three(
            self.nodes(),
            &INPUTS,
            &KEYS,
            &self.lits,
            &self.marks,
            &CLAUSES,
            self.counters(),
        ));
        let _ = println!(rt; "words {words} records {records}");
    }
}

fn main(rt: HostRuntime) {
    for tried in TRIED {
        Table { tried, ..SOUND }.say(&rt);
    }
    for table in OTHERS {
        table.say(&rt);
    }
}
