// The cases of document 01: plays plans as `replay` does, and writes each line with its answer beside it. What the
// working area holds at first is no part of an answer: here it is full of other numbers.
#![tactic(auto)]

use plans::LONGEST;
use plans_rows::{Db, OWN, Work};
use plans_turns::{BUFFER, Blocks, Filling, Unfailing, play_through};
use std::io;
use std::io::{BufReader, BufWriter};

// All memory is taken before the first line is read.
fn main(rt: HostRuntime) -> io::Result<()> {
    let alloc = rt.alloc();
    let mut db = Db::new(alloc, OWN, Work { int: 77, byte: 88 })?;
    let mut line = Vec::with_capacity(alloc, LONGEST + 1)?;
    let mut input = BufReader::with_capacity(alloc, BUFFER, Filling::new(rt.reader()))?;
    let out = BufWriter::with_capacity(alloc, BUFFER, Unfailing::new(io::writer(&rt)))?;
    let mut out = Blocks::new(out);
    play_through(&mut db, &mut line, &mut input, &mut out, true);
    Ok(())
}
