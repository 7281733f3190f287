// The commands, and how a line is read into one: a name, then its words, then nothing more.
ghost use Rattle.std.specs.Prelude.{◌≡◌, ◌≢◌, ◌<◌, ◌↔◌, IsTrue, IfOk, slice_get, length};
ghost use Rattle.plans.specs.Commands.{Fit, direction_of};

use crate::number;
use crate::words::{Words, is_blank};
use paper::{Pair, Semantics};
use std::num::ParseIntError;
use std::str;
use std::str::{FromStr, Utf8Error};

// A longer line can only be a comment.
pub const LONGEST: usize = 65536;

// Why a line is not carried out.
#[derive(Clone, Copy, Debug, PartialEq, Eq)]
pub enum LineError {
    Unreadable,
}

impl From<Utf8Error> for LineError {
    fn from(_error: Utf8Error) -> LineError {
        LineError::Unreadable
    }
}

impl From<ParseIntError> for LineError {
    fn from(_error: ParseIntError) -> LineError {
        LineError::Unreadable
    }
}

// The lengths of the rows that are lent, in the order of `rows`.
#[derive(Clone, Copy, Debug, PartialEq, Eq)]
pub struct Lengths {
    pub nodes: usize,
    pub inputs: usize,
    pub keys: usize,
    pub lits: usize,
    pub marks: usize,
    pub clauses: usize,
    pub ints: usize,
    pub bytes: usize,
}

impl Lengths {
    // Rows of these lengths are no longer than `own`.
    pub fn fit(self, own: Lengths) -> bool
        ensures { IsTrue result ↔ Fit self own }
    {
        self.nodes <= own.nodes
            && self.inputs <= own.inputs
            && self.keys <= own.keys
            && self.lits <= own.lits
            && self.marks <= own.marks
            && self.clauses <= own.clauses
            && self.ints <= own.ints
            && self.bytes <= own.bytes
    }
}

// A number for each row, and nothing more.
impl TryFrom<&[&str]> for Lengths {
    type Error = LineError;

    fn try_from(words: &[&str]) -> Result<Lengths, LineError> {
        let [nodes, inputs, keys, lits, marks, clauses, ints, bytes] = *words else {
            return Err(LineError::Unreadable);
        };
        Ok(Lengths {
            nodes: number(nodes)?,
            inputs: number(inputs)?,
            keys: number(keys)?,
            lits: number(lits)?,
            marks: number(marks)?,
            clauses: number(clauses)?,
            ints: number(ints)?,
            bytes: number(bytes)?,
        })
    }
}

// What `poke` writes, and the row that it writes it to.
#[derive(Clone, Copy, Debug, PartialEq, Eq)]
pub enum Entry {
    Words(u32),
    Inputs(i32),
    Keys(u32),
    Lits(i32),
    Marks(u8),
    Clauses(i32),
}

// What `set` writes.
#[derive(Clone, Copy, Debug, PartialEq, Eq)]
pub enum Counter {
    First,
    Next,
    Last,
    Nodes,
    Ins,
    Cells,
    Length,
    WorkInt,
    WorkByte,
}

// A public call of document 01.
#[derive(Clone, Copy)]
pub enum Call<'a> {
    Fresh(usize, usize),
    Leaf(i32),
    Dummy,
    Join(Pair),
    Count(usize, usize, Semantics),
    Sum(usize, usize),
    Reserve(usize),
    Reset,
    Clear,
    // The node, and the assignment, a digit of the line for each variable.
    Value(usize, &'a [u8]),
    Check,
}

// A call, or what is for the plans alone.
#[derive(Clone, Copy)]
pub enum Command<'a> {
    Call(Call<'a>),
    Rows(Lengths),
    // The index, and what is written there.
    Poke(usize, Entry),
    Set(Counter, usize),
    Dump,
}

impl FromStr for Counter {
    type Err = LineError;

    ghost use Rattle.plans.specs.Commands.{NamesCounter};

    ghost from_str_gives = { NamesCounter };

    fn from_str(name: &str) -> Result<Counter, LineError> {
        match name {
            "F" => Ok(Counter::First),
            "next" => Ok(Counter::Next),
            "last" => Ok(Counter::Last),
            "nodes" => Ok(Counter::Nodes),
            "ins" => Ok(Counter::Ins),
            "cells" => Ok(Counter::Cells),
            "length" => Ok(Counter::Length),
            "work_int" => Ok(Counter::WorkInt),
            "work_byte" => Ok(Counter::WorkByte),
            _ => Err(LineError::Unreadable),
        }
    }
}

impl Entry {
    // A value is read by the type of its row.
    fn parse(row: &str, value: &str) -> Result<Entry, LineError> {
        match row {
            "words" => Ok(Entry::Words(number(value)?)),
            "inputs" => Ok(Entry::Inputs(number(value)?)),
            "keys" => Ok(Entry::Keys(number(value)?)),
            "lits" => Ok(Entry::Lits(number(value)?)),
            "marks" => Ok(Entry::Marks(number(value)?)),
            "clauses" => Ok(Entry::Clauses(number(value)?)),
            _ => Err(LineError::Unreadable),
        }
    }
}

fn semantics_of(direction: &str) -> Result<Semantics, LineError>
    ensures { IfOk result (λ d. direction.now ≡ direction_of d) }
{
    match direction {
        "if" => Ok(Semantics::If),
        "onlyif" => Ok(Semantics::OnlyIf),
        "both" => Ok(Semantics::IfAndOnlyIf),
        _ => Err(LineError::Unreadable),
    }
}

// The bits of `value` are digits, one for each variable.
fn digits_of(word: &str) -> Result<&[u8], LineError> {
    let digits = word.as_bytes();
    if digits.iter().all(|b| b.is_ascii_digit()) {
        Ok(digits)
    } else {
        Err(LineError::Unreadable)
    }
}

impl<'a> Call<'a> {
    fn from_words(words: &[&'a str]) -> Result<Call<'a>, LineError> {
        match *words {
            ["fresh", first, last] => Ok(Call::Fresh(number(first)?, number(last)?)),
            ["leaf", x] => Ok(Call::Leaf(number(x)?)),
            ["dummy"] => Ok(Call::Dummy),
            ["join", left, lmul, right, rmul] => Ok(Call::Join(Pair {
                left: number(left)?,
                lmul: number(lmul)?,
                right: number(right)?,
                rmul: number(rmul)?,
            })),
            ["count", id, i, direction] => Ok(Call::Count(
                number(id)?,
                number(i)?,
                semantics_of(direction)?,
            )),
            ["sum", id, v] => Ok(Call::Sum(number(id)?, number(v)?)),
            ["reserve", id] => Ok(Call::Reserve(number(id)?)),
            ["reset"] => Ok(Call::Reset),
            ["clear"] => Ok(Call::Clear),
            ["value", id] => Ok(Call::Value(number(id)?, &[])),
            ["value", id, digits] => Ok(Call::Value(number(id)?, digits_of(digits)?)),
            ["check"] => Ok(Call::Check),
            _ => Err(LineError::Unreadable),
        }
    }
}

impl<'a> Command<'a> {
    // The command of a line, without what ends the line. An empty line and a comment have none.
    pub fn parse(line: &'a [u8]) -> Result<Option<Command<'a>>, LineError>
        ensures comment { slice_get line.now 0 ≡ Some 35 → result ≡ Ok None }
        ensures too_long { slice_get line.now 0 ≢ Some 35 → LONGEST < length line.now
            → result ≡ Err LineError.Unreadable }
    {
        if line.starts_with(b"#") {
            return Ok(None);
        }
        if line.len() > LONGEST {
            return Err(LineError::Unreadable);
        }

        // Before the words are parted, which costs more than such a line.
        if line.iter().all(|b| is_blank(*b)) {
            return Ok(None);
        }
        let words = Words::of(str::from_utf8(line)?)?;
        Ok(Some(Command::from_words(words.as_slice())?))
    }

    fn from_words(words: &[&'a str]) -> Result<Command<'a>, LineError> {
        match *words {
            ["rows", ref lengths @ ..] => Ok(Command::Rows(Lengths::try_from(lengths)?)),
            ["poke", row, i, value] => Ok(Command::Poke(number(i)?, Entry::parse(row, value)?)),
            ["set", counter, value] => Ok(Command::Set(counter.parse()?, number(value)?)),
            ["dump"] => Ok(Command::Dump),
            _ => Ok(Command::Call(Call::from_words(words)?)),
        }
    }
}
