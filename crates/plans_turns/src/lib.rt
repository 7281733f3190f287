// A plan carried out: each line of the input, and an answer for each on the output.
#![tactic(auto)]

mod answers;
mod streams;

use answers::{put_call, put_done, put_dump, put_line};
use plans::{Command, LONGEST};
use plans_rows::{Db, OWN, Work};
use std::alloc::Global;
use std::io::{BufRead, Read, Write};
use std::{fmt, io};
use streams::Telling;
pub use streams::{BUFFER, Blocks, Filling, Unfailing};

fn turn<W: Write>(db: &mut Db, command: Command<'_>, out: &mut W) -> fmt::Result {
    let done = match command {
        Command::Call(call) => {
            let before = db.counters.words;
            let said = db.call(call);
            return put_call(out, said, db.clause_words(before), db.counters.next);
        }
        Command::Dump => return put_dump(out, db),
        Command::Rows(lengths) => db.lend(lengths),
        Command::Poke(i, entry) => db.poke(i, entry),
        Command::Set(counter, v) => db.set(counter, v),
    };
    put_done(out, done, db.counters.next)
}

// The next line, without the byte that ends it, and whether there is one. Of a line that is longer than `LONGEST` it is one
// byte more than that, so that no line takes more memory. A read that fails ends the input.
fn next_line<R: BufRead>(input: &mut R, line: &mut Vec<u8>) -> bool {
    line.clear();
    let most = LONGEST as u64 + 1;
    let _ = Read::take(input.by_ref(), most).read_until(b'\n', line);
    if line.is_empty() {
        return false;
    }
    if line.last() == Some(&b'\n') {
        line.truncate(line.len() - 1);
    } else if line.len() > LONGEST {
        let _ = input.skip_until(b'\n');
    }
    true
}

// An answer for each line, to the end of the input; `beside` has each line stand before its answer. What cannot be written is
// passed over. `line` holds a line at a time, and grows only where its capacity is not `LONGEST + 1` yet. Before the first
// `rows` or `fresh` the rows are as long as they were made, and the counters are 0.
pub fn play_through<R: BufRead, W: Write>(
    db: &mut Db,
    line: &mut Vec<u8>,
    input: &mut R,
    out: &mut W,
    beside: bool,
) {
    // Nothing says that the input ends, and a proved loop has to: no input has more lines than this.
    for _ in 0..u64::MAX {
        if !next_line(input, line) {
            break;
        }
        let command = Command::parse(line);
        if beside {
            let _ = put_line(out, line, !matches!(command, Ok(None)));
        }
        let _ = match command {
            Ok(None) => Ok(()),
            Ok(Some(command)) => turn(db, command, out),
            Err(error) => put_done(out, Err(error), db.counters.next),
        };
    }
    let _ = out.flush();
}

// The answer to a line, as far as it can be written.
fn put_answer<W: Write>(db: &mut Db, line: &[u8], out: &mut W, beside: bool) -> fmt::Result {
    let command = Command::parse(line);
    if beside {
        put_line(out, line, !matches!(command, Ok(None)))?;
    }
    match command {
        Ok(None) => Ok(()),
        Ok(Some(command)) => turn(db, command, out),
        Err(error) => put_done(out, Err(error), db.counters.next),
    }
}

// The answers of `play_through`, on rows of its own, which are as long as they can be. A write that fails ends them: its line is
// the last that is read, and its error is told, as are a flush that fails and a lack of memory for the rows.
pub fn play<R: BufRead, W: Write>(
    alloc: Global,
    input: &mut R,
    out: &mut W,
    work: Work,
    beside: bool,
) -> io::Result<()> {
    let mut db = Db::new(alloc, OWN, work)?;
    let mut line = Vec::with_capacity(alloc, LONGEST + 1)?;
    let mut out = Telling::new(out);
    for _ in 0..u64::MAX {
        if !next_line(input, &mut line) {
            break;
        }
        if put_answer(&mut db, &line, &mut out, beside).is_err() {
            return Err(out.error());
        }
    }
    out.flush()
}

#[cfg(test)]
mod tests {
    use super::*;
    use std::io::BufWriter;
    use std::str;
    use std::test::Fail;

    const PLAN: &str =
        "rows 80 9 9 9 9 99 9 9\nfresh 4 9\n# a comment\n\nleaf 1\nleaf -2\r\njoin 0 1 1 1\n\
        count 2 1 if\nvalue 2 101\nset work_int 12\npoke marks 1 300\nleaf +1\ndump";

    const BESIDE: &str =
        "rows 80 9 9 9 9 99 9 9 => 0 0 | | 0\nfresh 4 9 => 0 0 | | 4\n# a comment\n\n\
        leaf 1 => 0 0 | | 4\nleaf -2\r => 0 1 | | 4\njoin 0 1 1 1 => 0 2 | | 4\n\
        count 2 1 if => 0 4 | -1 2 4 0 | 5\nvalue 2 101 => 0 2 | | 5\nset work_int 12 => 0 0 | | 5\n\
        poke marks 1 300 => bad | | 5\nleaf +1 => bad | | 5\n\
        dump => 0 0 leaf 1 ; 1 leaf -2 ; 2 unit 0 1 1 1 depth 2 cells 1:0:0 2:4:1 | | 5\n";

    // The answers are tools/paper.py's.
    #[test]
    fn answers_stand_beside_their_lines(rt: HostRuntime) -> Result<(), Fail> {
        let alloc = rt.alloc();
        let mut input = PLAN.as_bytes();
        let mut out = Vec::new(alloc);
        let mut db = Db::new(alloc, OWN, Work { int: 3, byte: 4 })?;
        let mut line = Vec::with_capacity(alloc, LONGEST + 1)?;
        play_through(&mut db, &mut line, &mut input, &mut out, true);
        assert_eq!(rt; str::from_utf8(&out)?, BESIDE);
        Ok(())
    }

    fn lines(text: &[u8]) -> usize {
        text.iter().filter(|b| **b == b'\n').count()
    }

    // Wherever the room ends. The line that is not answered is read, and the last of the plan has no end.
    #[test]
    fn failed_write_is_told(rt: HostRuntime) -> Result<(), Fail> {
        let alloc = rt.alloc();
        let work = Work { int: 3, byte: 4 };
        for room in 0..BESIDE.len() {
            let mut input = PLAN.as_bytes();
            let mut text = vec![in alloc; 0; room]?;
            let told = play(alloc, &mut input, &mut text.as_mut_slice(), work, true);
            assert!(rt; told.is_err_and(|error| error.kind() == io::ErrorKind::WriteZero));
            let (kept, lost) = BESIDE.as_bytes().split_at(room);
            assert_eq!(rt; text.as_slice(), kept);
            assert_eq!(rt; lines(input), lines(lost).saturating_sub(2));
        }
        Ok(())
    }

    #[test]
    fn what_is_told_is_flushed(rt: HostRuntime) -> Result<(), Fail> {
        let alloc = rt.alloc();
        let mut input = PLAN.as_bytes();
        let mut out = BufWriter::with_capacity(alloc, BUFFER, Vec::new(alloc))?;
        let work = Work { int: 3, byte: 4 };
        play(alloc, &mut input, &mut out, work, true)?;
        assert_eq!(rt; str::from_utf8(out.get_ref())?, BESIDE);
        assert!(rt; input.is_empty());
        Ok(())
    }

    #[test]
    fn long_lines_are_cut(rt: HostRuntime) -> Result<(), Fail> {
        let alloc = rt.alloc();
        for (len, kept) in [(65536, 65536), (65537, 65537), (70000, 65537)] {
            let mut text = vec![in alloc; b'x'; len]?;
            text.extend_from_slice(b"\ndump\n")?;
            let mut input = text.as_slice();
            let mut line = Vec::new(alloc);
            assert!(rt; next_line(&mut input, &mut line));
            assert_eq!(rt; line.len(), kept);
            assert!(rt; next_line(&mut input, &mut line));
            assert_eq!(rt; line.as_slice(), b"dump".as_slice());
            assert!(rt; !next_line(&mut input, &mut line));
        }
        Ok(())
    }
}
