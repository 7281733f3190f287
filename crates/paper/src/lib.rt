// The types of the database and of its calls, and the limits. Each has its meaning in specs/, where document 01 is
// written down as definitions that compute; the code that meets them is in the crates above this one.
#![tactic(auto)]

ghost use Rattle.std.specs.Prelude.{◌≡◌};
ghost use Rattle.paper.specs.Numbers.{number_of, semantics_of, counters_of, numbers_of};
ghost use Rattle.paper.specs.Plain.{want_of};

// "Limits: 4,096 nodes; 16,384 cells; depth 64; multiplier 1 to 65,535; key at most 2,147,483,647."
// specs/Limits.antt names the same numbers for the definitions.
pub const NODE_LIMIT: usize = 4096;

pub const CELL_LIMIT: usize = 16384;

pub const DEPTH_LIMIT: usize = 64;

pub const MUL_LIMIT: usize = 65535;

pub const KEY_LIMIT: usize = 2147483647;

pub const VAR_LIMIT: usize = 2147483647;

pub const NODE_WORDS: usize = 8;

// The counters that go with the rows, by value, in and out: F, the first free variable, the last variable, and how many
// nodes, input literals, cells and clause words are in use.
#[derive(Clone, Copy)]
pub struct Counters {
    pub first: usize,
    pub next: usize,
    pub last: usize,
    pub nodes: usize,
    pub inputs: usize,
    pub cells: usize,
    pub words: usize,
}

// The counters as other languages have them: first, next, last, nodes, inputs, cells, words.
impl From<[usize; 7]> for Counters {
    ghost from_gives = { λ a c. c ≡ counters_of a };

    fn from(a: [usize; 7]) -> Counters {
        let [first, next, last, nodes, inputs, cells, words] = a;
        Counters {
            first,
            next,
            last,
            nodes,
            inputs,
            cells,
            words,
        }
    }
}

impl From<Counters> for [usize; 7] {
    ghost from_gives = { λ c a. a ≡ numbers_of c };

    fn from(c: Counters) -> [usize; 7] {
        [c.first, c.next, c.last, c.nodes, c.inputs, c.cells, c.words]
    }
}

// The eight words of a node. kind: 0 leaf, 1 unit, 2 general, 3 dummy.
#[derive(Clone, Copy)]
pub struct Node {
    pub kind: usize,
    pub left: usize,
    pub lmul: usize,
    pub right: usize,
    pub rmul: usize,
    pub first: usize,
    pub count: usize,
    pub depth: usize,
}

// What a node is, by its word `kind`. A word above 3 is no kind: the table check refuses such a node.
#[derive(Clone, Copy, PartialEq, Eq, Debug)]
pub enum Kind {
    Leaf,
    Unit,
    General,
    Dummy,
    Other,
}

impl Node {
    ghost use Rattle.std.specs.Prelude.{◌≡◌};
    ghost use Rattle.paper.specs.Kinds.{Names};
    ghost use Rattle.paper.specs.Rows.{is_leaf, is_general, is_dummy};

    #[inline]
    pub fn kind_of(self) -> Kind
        ensures { Names self.kind result }
    {
        match self.kind {
            0 => Kind::Leaf,
            1 => Kind::Unit,
            2 => Kind::General,
            3 => Kind::Dummy,
            _ => Kind::Other,
        }
    }

    #[inline]
    pub fn is_leaf(self) -> bool
        ensures { result ≡ is_leaf self }
    {
        self.kind == Kind::Leaf as usize
    }

    #[inline]
    pub fn is_general(self) -> bool
        ensures { result ≡ is_general self }
    {
        self.kind == Kind::General as usize
    }

    #[inline]
    pub fn is_dummy(self) -> bool
        ensures { result ≡ is_dummy self }
    {
        self.kind == Kind::Dummy as usize
    }
}

// The crate's `Semantics`: what an unweighted demand asks for.
#[derive(Clone, Copy)]
pub enum Semantics {
    If,
    OnlyIf,
    IfAndOnlyIf,
}

// 1 asks for If, 2 for OnlyIf, and any other number for both, so that a wrong number never asks for less.
impl From<u32> for Semantics {
    ghost from_gives = { λ n s. s ≡ semantics_of n };

    #[tactic(auto, unfolding(crate::specs::Numbers::semantics_of))]
    fn from(demand: u32) -> Semantics {
        match demand {
            1 => Semantics::If,
            2 => Semantics::OnlyIf,
            _ => Semantics::IfAndOnlyIf,
        }
    }
}

// What has been asked for at a cell, as the crate's `LitData` keeps it. In the row: 0, 1, 2, 3.
#[derive(Clone, Copy)]
pub enum Mark {
    Unmarked,
    MarkedIf,
    MarkedOnlyIf,
    MarkedBoth,
}

// The directions of a demand, taken apart: If, OnlyIf.
#[derive(Clone, Copy)]
pub struct Want {
    pub fi: bool,
    pub fo: bool,
}

impl Want {
    pub const IF: Want = Want {
        fi: true,
        fo: false,
    };

    pub const ONLY_IF: Want = Want {
        fi: false,
        fo: true,
    };

    pub const BOTH: Want = Want { fi: true, fo: true };
}

impl From<Semantics> for Want {
    #[tactic(auto, unfolding(crate::specs::Plain::want_of))]
    fn from(s: Semantics) -> Want
        ensures { result ≡ want_of s }
    {
        match s {
            Semantics::If => Want::IF,
            Semantics::OnlyIf => Want::ONLY_IF,
            Semantics::IfAndOnlyIf => Want::BOTH,
        }
    }
}

// Why a call is refused. specs/Numbers.antt has document 01's number for each.
#[derive(Clone, Copy)]
pub enum Refusal {
    NoSuchOutput,
    TableFails,
    WorkShort,
    NoSuchNode,
    GeneralNode,
    BadLiteral,
    BadMultiplier,
    NoValue,
    KeyTooLarge,
    TooDeep,
    NoRoom,
    VariablesOut,
    ClausesShort,
    BadAssignment,
    BadVariables,
}

// The paper's number of a refusal.
impl From<Refusal> for u32 {
    ghost from_gives = { λ why n. n ≡ number_of why };

    fn from(why: Refusal) -> u32 {
        match why {
            Refusal::NoSuchOutput => 1,
            Refusal::TableFails => 2,
            Refusal::WorkShort => 3,
            Refusal::NoSuchNode => 4,
            Refusal::GeneralNode => 5,
            Refusal::BadLiteral => 6,
            Refusal::BadMultiplier => 7,
            Refusal::NoValue => 8,
            Refusal::KeyTooLarge => 9,
            Refusal::TooDeep => 10,
            Refusal::NoRoom => 11,
            Refusal::VariablesOut => 12,
            Refusal::ClausesShort => 13,
            Refusal::BadAssignment => 14,
            Refusal::BadVariables => 15,
        }
    }
}

// What a done call gives back, with the counters after it: the id of the node that is asked for, ..
#[derive(Clone, Copy)]
pub struct Added {
    pub id: usize,
    pub counters: Counters,
}

// .. or the literal of the output that is demanded.
#[derive(Clone, Copy)]
pub struct Demanded {
    pub lit: i32,
    pub counters: Counters,
}

// The two connections of an inner node that is asked for.
#[derive(Clone, Copy)]
pub struct Pair {
    pub left: usize,
    pub lmul: usize,
    pub right: usize,
    pub rmul: usize,
}

// The lengths of the rows that an inner node goes to.
#[derive(Clone, Copy)]
pub struct Sizes {
    pub nodes: usize,
    pub keys: usize,
    pub lits: usize,
    pub marks: usize,
}

// The counters that a demand moves: the next free variable, and the words of the clause row that are taken.
#[derive(Clone, Copy)]
pub struct Run {
    pub next: usize,
    pub words: usize,
}

// "Each clause has at most three literals; while being built it is a small value of its own."
#[derive(Clone, Copy)]
pub struct Clause {
    pub lits: [i32; 3],
    pub len: usize,
}

// The outputs from `from` up to, and without, `to`.
#[derive(Clone, Copy)]
pub struct Span {
    pub from: usize,
    pub to: usize,
}

// What the walk over the two children goes through.
#[derive(Clone, Copy)]
pub struct Ranges {
    pub left: usize,
    pub right: usize,
    pub left_if: Span,
    pub right_if: Span,
    pub left_only: Span,
    pub right_only: Span,
}

// What is left to do at a cell: the directions that are missing, and the mark that the cell then has.
#[derive(Clone, Copy)]
pub struct Todo {
    pub want: Want,
    pub mark: u8,
}

// "the three-way outcome stays an enum holding the ranges": nothing is missing, one child is the dummy and the other is
// asked, or the children are walked.
#[derive(Clone, Copy)]
pub enum Precond {
    Return,
    Pass(usize, Todo),
    Continue(Ranges, Todo),
}

// A way to make up a value: an output of the left child and one of the right, counted from 1, and 0 for none.
#[derive(Clone, Copy)]
pub struct Way {
    pub x: usize,
    pub y: usize,
}

// What is to be done for an output of a weighted demand: nothing, an index of a unit, or a cell and its key.
#[derive(Clone, Copy)]
pub enum Job {
    Nothing,
    Count(usize),
    Sum(usize, usize),
}

// What a demand reads of the table: the rows of nodes, input literals and keys.
#[derive(Clone, Copy)]
pub struct Tree<'a> {
    pub nodes: &'a [u32],
    pub inputs: &'a [i32],
    pub keys: &'a [u32],
}
