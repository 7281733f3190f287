// Replays a plan: reads commands on standard input, one a line, carries each out by the public calls, and writes one line
// for each, `NUMBER ANSWER | WORDS | NEXT`, to standard output.
#![tactic(auto)]

use plans::LONGEST;
use plans_rows::{Db, OWN, Work};
use plans_turns::{BUFFER, Blocks, Filling, Unfailing, play_through};
use std::io;
use std::io::{BufReader, BufWriter};

// All memory is taken before the first line is read.
fn main(rt: HostRuntime) -> io::Result<()> {
    let alloc = rt.alloc();
    let mut db = Db::new(alloc, OWN, Work { int: 0, byte: 0 })?;
    let mut line = Vec::with_capacity(alloc, LONGEST + 1)?;
    let mut input = BufReader::with_capacity(alloc, BUFFER, Filling::new(rt.reader()))?;
    let out = BufWriter::with_capacity(alloc, BUFFER, Unfailing::new(io::writer(&rt)))?;
    let mut out = Blocks::new(out);
    play_through(&mut db, &mut line, &mut input, &mut out, false);
    Ok(())
}
