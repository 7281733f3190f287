// What the table check and the call that adds an inner node cost, timed from outside. Standard input has two bytes: the case,
// and how often: 0 for once, 1 for ten times, up to 4. What is written depends on these alone.
//   u: checks of 16384 cells of units
//   a, b: checks of 4602 and of 9149 cells, the most of them in one general node over 63 and 68, or 63 and 136 values
//   c, d: checks of 4082 and of 8177 cells, in general nodes with one leaf each on the right
//   e, f: the general node of a, of b, added
#![tactic(auto)]

use paper::{Counters, Pair, Refusal};
use std::io::Read;

// Why a run ends early: a call is refused, by document 01's number.
#[derive(Debug, Drop)]
enum Failure {
    Refused(u32),
}

impl From<Refusal> for Failure {
    fn from(why: Refusal) -> Failure {
        Failure::Refused(why.into())
    }
}

// Towers of general nodes, as the multipliers of the leaf on the right. The topmost node has as many values as the name says.
const TO_68: &[usize] = &[2, 4, 8, 16, 32, 5];

const TO_136: &[usize] = &[2, 4, 8, 16, 32, 64, 9];

const TO_2047: &[usize] = &[2, 4, 8, 16, 32, 64, 128, 256, 512, 1024];

const TO_4095: &[usize] = &[2, 4, 8, 16, 32, 64, 128, 256, 512, 1024, 2048];

// What is timed: checks of units, of a large node over a tower, of a tower alone; or the large node, added.
#[derive(Clone, Copy)]
enum Case {
    Units,
    Large(&'static [usize]),
    Slender(&'static [usize]),
    Added(&'static [usize]),
}

impl From<u8> for Case {
    fn from(letter: u8) -> Case {
        match letter {
            b'a' => Case::Large(TO_68),
            b'b' => Case::Large(TO_136),
            b'c' => Case::Slender(TO_2047),
            b'd' => Case::Slender(TO_4095),
            b'e' => Case::Added(TO_68),
            b'f' => Case::Added(TO_136),
            _ => Case::Units,
        }
    }
}

fn times(digit: u8) -> usize {
    match digit {
        b'1' => 10,
        b'2' => 100,
        b'3' => 1000,
        b'4' => 10000,
        _ => 1,
    }
}

// The rows, with the counters.
#[derive(Drop)]
struct Table {
    nodes: [u32; 512],
    inputs: [i32; 8],
    keys: [u32; 16384],
    lits: [i32; 16384],
    marks: [u8; 16384],
    counters: Counters,
}

impl Table {
    // Node 0 is a leaf.
    fn new() -> Result<Table, Refusal> {
        let mut table = Table {
            nodes: [0; 512],
            inputs: [0; 8],
            keys: [0; 16384],
            lits: [0; 16384],
            marks: [0; 16384],
            counters: grow::fresh(2, 100)?,
        };
        let leaf = grow::leaf(
            &mut table.nodes,
            &mut table.inputs,
            &table.keys,
            &table.lits,
            &table.marks,
            0,
            table.counters,
            1,
        )?;
        table.counters = leaf.counters;
        Ok(table)
    }

    fn inner(&mut self, left: usize, right: usize, rmul: usize) -> Result<(), Refusal> {
        let done = join::inner(
            &mut self.nodes,
            &self.inputs,
            &mut self.keys,
            &mut self.lits,
            &mut self.marks,
            0,
            self.counters,
            Pair {
                left,
                lmul: 1,
                right,
                rmul,
            },
        )?;
        self.counters = done.counters;
        Ok(())
    }

    fn is_ok(&self) -> bool {
        table::table_ok(
            &self.nodes,
            &self.inputs,
            &self.keys,
            &self.lits,
            &self.marks,
            0,
            self.counters,
        )
    }

    // Units, each over the one before it twice, and one more over the leaf twice.
    fn units(&mut self) -> Result<(), Refusal> {
        for i in 0..13 {
            self.inner(i, i, 1)?;
        }
        self.inner(0, 0, 1)
    }

    // General nodes, each over the one before it and the leaf.
    fn tower(&mut self, muls: &[usize]) -> Result<(), Refusal> {
        for (i, mul) in muls.iter().enumerate() {
            self.inner(i, 0, *mul)?;
        }
        Ok(())
    }

    // A general node over node 5, which has 63 values, and the topmost of the tower.
    fn large(&mut self, muls: &[usize]) -> Result<(), Refusal> {
        self.inner(5, muls.len(), 64)
    }

    // How many of n checks pass. An entry past those in use is changed each time, so that no check is left out.
    fn checks(&mut self, n: usize) -> usize {
        let mut passed = 0;
        for i in 0..n {
            self.inputs[7] = if i % 2 == 0 { 7 } else { 8 };
            passed += usize::from(self.is_ok());
        }
        passed
    }

    // The same node added n times to the same table.
    fn adds(&mut self, muls: &[usize], n: usize) -> Result<usize, Refusal> {
        let before = self.counters;
        for _ in 0..n {
            self.counters = before;
            self.large(muls)?;
        }
        Ok(n)
    }

    // How many of n checks pass, or of n calls are done.
    fn run(&mut self, case: Case, n: usize) -> Result<usize, Refusal> {
        match case {
            Case::Units => self.units()?,
            Case::Large(muls) => {
                self.tower(muls)?;
                self.large(muls)?;
            }
            Case::Slender(muls) => self.tower(muls)?,
            Case::Added(muls) => {
                self.tower(muls)?;
                return self.adds(muls, n);
            }
        }
        Ok(self.checks(n))
    }
}

// A byte that is missing reads as 0. Where standard output can't be written, nothing is said of it.
fn main(rt: HostRuntime) -> Result<(), Failure> {
    let mut asked = rt.reader().bytes().map_while(Result::ok);
    let case = Case::from(asked.next().unwrap_or(0));
    let n = times(asked.next().unwrap_or(0));
    let mut table = Table::new()?;
    let passed = table.run(case, n)?;
    let _ = println!(rt; "passed: {passed}, cells: {}", table.counters.cells);
    Ok(())
}
